// Texts: whether two are the same, one laid at an output's start, and the number that one is.
ghost use Rattle.std.specs.Prelude.{◌≡◌, ◌++◌};
ghost use Rattle.tool_words.specs.Numbers.{number_in};
ghost use Rattle.tool_words.specs.Texts.{same, Laid};

// Whether two texts are the same.
#[tactic(auto, using(crate::proofs::TextLaws::same_pointwise))]
pub fn is_same(a: &[u8], b: &[u8]) -> bool
    ensures { result ≡ same a.now b.now }
{
    a == b
}

// A decimal number of 1 to 9 digits, or none.
pub fn number_in(text: &[u8]) -> Option<u32>
    ensures { result ≡ number_in text.now }
{
    if text.is_empty() || 9 < text.len() {
        return None;
    }
    let mut v = 0;
    for x in text {
        match x {
            b'0'..=b'9' => v = 10 * v + u32::from(x - b'0'),
            _ => return None,
        }
    }
    Some(v)
}

// A text at the start of a lent output, of two parts, and its length; where it does not fit, nothing.
pub fn lay(first: &[u8], second: &[u8], out: &mut [u8]) -> Option<usize>
    ensures { Laid (first.now ++ second.now) out.old out.new result }
{
    let from = first.len();
    let room = out.len();
    if room < from || room - from < second.len() {
        return None;
    }
    let end = from + second.len();
    out[..from].copy_from_slice(first);
    out[from..end].copy_from_slice(second);
    Some(end)
}
