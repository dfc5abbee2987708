// Text of key=value lines, written and read: a word, a decimal number, a line, a line whose number is in a range.
// A number of any number of digits is read and never wrapped: one too large for 32 bits is told as the largest (specs/Reading, capped).
#![tactic(auto)]

ghost use Rattle.std.specs.Prelude.{◌≡◌, ◌+◌, ◌*◌, ◌-◌, ◌≤◌, min, length, drop};
ghost use Rattle.text_keyvalue.specs.Reading.{as_read, capped, number, begins, most};
ghost use Rattle.text_keyvalue.specs.Lines.{line_of, line, ranged};
ghost use Rattle.text_lines.specs.Puts.{Puts};

// One digit more; what is too large stays so.
fn more(v: u32, x: u8) -> u32
    requires { (48 ≤ x) × (x ≤ 57) }
    ensures { result ≡ min (10 * v + (x - 48)) most }
{
    (10 * u64::from(v) + u64::from(x - 48)).min(4294967295) as u32
}

// "decimal without leading zeros", of any number of digits, and the next place. A 0 stands alone: what follows it is not looked at.
pub fn number_at(text: &[u8], at: usize) -> Option<(u32, usize)>
    ensures { as_read result ≡ capped (number text.now at) }
{
    let first = *text.get(at)?;
    if first == 48 {
        return Some((0, at + 1));
    }
    if !first.is_ascii_digit() {
        return None;
    }
    let mut v = 0;
    for (i, x) in text[at..].iter().enumerate() {
        if !x.is_ascii_digit() {
            return Some((v, at + i));
        }
        v = more(v, *x);
    }
    Some((v, text.len()))
}

// Whether a word stands at a place.
pub fn has_word(text: &[u8], at: usize, word: &[u8]) -> bool
    ensures { result ≡ begins word.now (drop at text.now) }
{
    text[at.min(text.len())..].starts_with(word)
}

// "key=value lines, .. each ended by octet 0A". A key's word ends in '='.
pub fn line_at(text: &[u8], at: usize, key: &[u8]) -> Option<(u32, usize)>
    ensures { as_read result ≡ capped (line key.now text.now at) }
{
    if !has_word(text, at, key) {
        return None;
    }
    let (n, end) = number_at(text, at + key.len())?;
    if has_word(text, end, b"\n") {
        Some((n, end + 1))
    } else {
        None
    }
}

// A line whose number is in a range.
pub fn ranged_line(text: &[u8], at: usize, key: &[u8], low: u32, high: u32) -> Option<(u32, usize)>
    requires { high + 1 ≤ most }
    ensures { as_read result ≡ ranged key.now low high text.now at }
{
    let (n, next) = line_at(text, at, key)?;
    if low <= n && n <= high {
        Some((n, next))
    } else {
        None
    }
}

// How many octets a line is.
pub fn line_octets(key: &[u8], n: u32) -> usize
    requires { length key.now ≤ 1000 }
    ensures value { result ≡ length (line_of key.now n) }
    ensures most { result ≤ length key.now + 11 }
{
    key.len() + text_lines::digits(n as usize) + 1
}

// A line put into lent octets at a place, with room for just that; answers the next place.
pub fn put_line(key: &[u8], n: u32, out: &mut [u8], at: usize) -> usize
    requires { at + length (line_of key.now n) ≤ length out.old }
    ensures puts { Puts out.old at (line_of key.now n) out.new result }
    ensures most { result ≤ at + length key.now + 11 }
{
    let value = text_lines::put_word(key, out, at);
    let end = text_lines::put_number(n as usize, out, value);
    text_lines::put_word(b"\n", out, end)
}
