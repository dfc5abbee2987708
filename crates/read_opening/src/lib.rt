// How a frame opens: "Order: LAW, SET, then in a frame PREFIX, tool decided".
#![tactic(auto)]

ghost use Rattle.std.specs.Prelude.{◌≡◌, ◌+◌, ◌/◌, ◌≤◌, ◌<◌, true, length};
ghost use Rattle.rules.specs.Tools.{is_length};
ghost use Rattle.rules.specs.Bits.{bits_of};
ghost use Rattle.rules.specs.First.{mark_at, six_not_eight};
ghost use Rattle.rules.specs.Fractional.{first_code};
ghost use Rattle.read_bits.specs.Outcomes.{Reads};
ghost use Rattle.read_opening.specs.Opening.{row_in, Opens, SixOrEight, Starts};

use first_octet::Begins;
use read_bits::{Outcome, Stop};
use rules::Refusal;

// What a frame's first bits say: its tool and length, tool 6's mark or tool 11's row, and the place where its body begins.
// The mark is a number, 0 for tools that have none: `body_by` takes it so, and an enum would put a match in each use.
#[derive(Clone, Copy)]
pub struct Head {
    pub tool: u32,
    pub len: usize,
    pub mark: usize,
    pub at: usize,
}

// How a frame opens; a pad has no head.
pub type Opening = Result<Option<Head>, Stop>;

// "If the next two bits are 00 it is tool 8"; where the first of them is 1 the second is not asked for.
pub fn six_not_eight(octets: &[u8], at: usize) -> Outcome
    requires { (at ≤ 7) × (1 ≤ length octets.now) }
    ensures { Reads (six_not_eight (bits_of octets.now) at) 8 9 result }
{
    if read_bits::bit_at(octets, at) == 1 {
        return Ok((6, at + 1));
    }
    let (second, next) = read_bits::bit(octets, at + 1)?;
    if second == 1 {
        Ok((6, next))
    } else {
        Ok((8, next))
    }
}

// The place of tool 6's mark: the length code is 2 bits, or 4 for 240 and 320, and the mark the third bit after it.
pub fn mark_at(n: usize) -> usize
    ensures { (result ≡ mark_at n) × (result ≤ 6) }
{
    if 240 <= n { 6 } else { 4 }
}

// "Tool 6 or 8": the mark, the tool, and the body from the bits that decided it on.
fn six_or_eight(octets: &[u8], n: usize) -> Opening
    requires { (is_length n ≡ true) × (1 ≤ length octets.now) }
    ensures { SixOrEight octets.now n result }
{
    let m = mark_at(n);
    let mark = read_bits::bit_at(octets, m);
    let (t, _) = six_not_eight(octets, m + 1)?;
    Ok(Some(Head {
        tool: t as u32,
        len: n,
        mark,
        at: m + 1,
    }))
}

// Tool 11's row is told by the first octet (document 02, R-14); the others have nothing there.
fn row_in(o: u8, t: u32, n: usize) -> usize
    requires { t ≡ 11 → first_code n ≤ o }
    ensures { result ≡ row_in o t n }
{
    if t == 11 {
        usize::from(o - value_rows::first_code(n))
    } else {
        0
    }
}

// What the first octet begins, and where it is tool 6 or 8, which of them.
fn opening_of(octets: &[u8]) -> Opening
    ensures { Opens octets.now result }
{
    if octets.is_empty() {
        return Err(Stop {
            why: Refusal::Short,
            bit: 0,
        });
    }
    let first = octets[0];
    // A pad is told at once: a stream may be all pads.
    if first == 0 {
        return Ok(None);
    }
    match first_octet::first_octet(first) {
        Begins::Unassigned => Err(Stop {
            why: Refusal::Prefix,
            bit: 0,
        }),
        Begins::Pad => Ok(None),
        Begins::Tool(t, n) => Ok(Some(Head {
            tool: t,
            len: n,
            mark: row_in(first, t, n),
            at: 8,
        })),
        Begins::SixOrEight(n) => six_or_eight(octets, n),
    }
}

// How one frame at the start of some octets opens: "Order: LAW, SET", then the frame.
pub fn opens(octets: &[u8], law: u32, set: u32) -> Opening
    ensures { Starts octets.now law set result }
{
    match rules::guard(law, set) {
        Err(why) => Err(Stop { why, bit: 0 }),
        Ok(()) => opening_of(octets),
    }
}
