// The lines of the listing (document 01, "Walk and listing"). Each function puts its text into lent octets at a place
// and answers the next place.
#![tactic(auto)]

ghost use Rattle.std.specs.Prelude.{◌+◌, ◌≤◌, ◌≡◌, length, ◌++◌};
ghost use Rattle.rules.specs.Listing.{line_end, tool_word, octets_word, bits_word, decimal, field};
ghost use Rattle.rules.specs.Listing.{law_line, frame_line, stop_fields, stop_line, samples_line};
ghost use Rattle.text_lines.specs.Puts.{Puts};

pub fn put_word(word: &[u8], out: &mut [u8], at: usize) -> usize
    requires { at + length word.now ≤ length out.old }
    ensures { Puts out.old at word.now out.new result }
{
    let next = at + word.len();
    rules::copy_over(&mut out[at..next], word);
    next
}

// A number's digits, at the end of 20 octets. The last one is found first, so the octets are filled from their end.
// The loop is the division: its turns are known by what is left of the number.
fn spell(n: usize, octets: &mut [u8; 20]) -> &[u8]
    ensures { result.now ≡ decimal n }
{
    let mut from = 19;
    let mut rest = n;
    while 10 <= rest {
        octets[from] = b'0' + (rest % 10) as u8;
        rest /= 10;
        from -= 1;
    }
    octets[from] = b'0' + rest as u8;
    &octets[from..]
}

// How many octets a number's digits are.
pub fn digits(n: usize) -> usize
    ensures { result ≡ length (decimal n) }
{
    spell(n, &mut [0; 20]).len()
}

pub fn put_number(n: usize, out: &mut [u8], at: usize) -> usize
    requires { at + length (decimal n) ≤ length out.old }
    ensures { Puts out.old at (decimal n) out.new result }
{
    put_word(spell(n, &mut [0; 20]), out, at)
}

pub fn put_field(word: &[u8], n: usize, out: &mut [u8], at: usize) -> usize
    requires { at + length word.now + 20 ≤ length out.old }
    ensures puts { Puts out.old at (field word.now n) out.new result }
    ensures most { result ≤ at + length word.now + 20 }
{
    let next = put_word(word, out, at);
    put_number(n, out, next)
}

pub fn law_line(law: usize, out: &mut [u8], at: usize) -> usize
    requires { at + 160 ≤ length out.old }
    ensures puts { Puts out.old at (law_line law) out.new result }
    ensures most { result ≤ at + 160 }
{
    let end = put_field(b"law=", law, out, at);
    put_word(b"\n", out, end)
}

// Apart from `law_line`: the paper names both lines, and each is short.
pub fn samples_line(samples: usize, out: &mut [u8], at: usize) -> usize
    requires { at + 160 ≤ length out.old }
    ensures puts { Puts out.old at (samples_line samples) out.new result }
    ensures most { result ≤ at + 160 }
{
    let end = put_field(b"samples=", samples, out, at);
    put_word(b"\n", out, end)
}

// How and where it stopped, and the tool that is named.
fn put_stop(number: usize, place: usize, tool: usize, out: &mut [u8], at: usize) -> usize
    requires { at + 75 ≤ length out.old }
    ensures puts { Puts out.old at (stop_fields number place tool) out.new result }
    ensures most { result ≤ at + 75 }
{
    let n = put_field(b"stop=", number, out, at);
    let p = put_field(b" at=", place, out, n);
    put_field(b" tool=", tool, out, p)
}

// "The listing's stop line gains ` bit=` at its end."
pub fn stop_line(
    number: usize,
    place: usize,
    tool: usize,
    bit: usize,
    out: &mut [u8],
    at: usize,
) -> usize
    requires { at + 160 ≤ length out.old }
    ensures puts { Puts out.old at (stop_line number place tool bit) out.new result }
    ensures most { result ≤ at + 160 }
{
    let t = put_stop(number, place, tool, out, at);
    let end = put_field(b" bit=", bit, out, t);
    put_word(b"\n", out, end)
}

// The same of a writing, which has no bit to name.
pub fn pack_line(number: usize, place: usize, tool: usize, out: &mut [u8], at: usize) -> usize
    requires { at + 160 ≤ length out.old }
    ensures puts { Puts out.old at (stop_fields number place tool ++ line_end) out.new result }
    ensures most { result ≤ at + 160 }
{
    let end = put_stop(number, place, tool, out, at);
    put_word(b"\n", out, end)
}

// The second half of a frame's line: its tool, its octets and its bits.
fn put_reading(tool: usize, octets: usize, bits: usize, out: &mut [u8], at: usize) -> usize
    requires { at + 81 ≤ length out.old }
    ensures puts { Puts out.old at (field tool_word tool ++ (field octets_word octets ++ (field bits_word bits ++ line_end)))
        out.new result }
    ensures most { result ≤ at + 81 }
{
    let t = put_field(b" tool=", tool, out, at);
    let o = put_field(b" octets=", octets, out, t);
    let end = put_field(b" bits=", bits, out, o);
    put_word(b"\n", out, end)
}

pub fn frame_line(
    frame: usize,
    place: usize,
    samples: usize,
    tool: usize,
    octets: usize,
    bits: usize,
    out: &mut [u8],
    at: usize,
) -> usize
    requires { at + 160 ≤ length out.old }
    ensures puts { Puts out.old at (frame_line frame place samples tool octets bits) out.new result }
    ensures most { result ≤ at + 160 }
{
    let f = put_field(b"frame=", frame, out, at);
    let p = put_field(b" at=", place, out, f);
    let s = put_field(b" samples=", samples, out, p);
    put_reading(tool, octets, bits, out, s)
}
