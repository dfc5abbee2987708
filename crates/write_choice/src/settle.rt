// The look at a frame: the choice where it settles it, else which plan does.

ghost use Rattle.std.specs.Prelude.{ℕ, ◌≡◌, true, cond, ◌&&◌, ◌%◌, ◌<◌, get_or, Some, None, eqb, ltb};
ghost use Rattle.rules.specs.Tools as tools;
ghost use Rattle.write_scan.specs.Looks.{SpreadIs, is_mask, FrameIn};
ghost use Rattle.write_choice.specs.Plans.{value_tool, SettledTool, OfKind, Settles};

use first_octet::holds;
use law::{minus_zero, plus_zero};
use write_offers::{Choice, whole_bits};
use write_scan::{Spread, spread_of};

// Whether a tool is for this sample, and held.
fn is_for(x: u8, y: u8, set: u32, tool: u32) -> bool
    ensures { result ≡ tools.holds set tool && eqb x y }
{
    holds(set, tool) && x == y
}

// The tool of a frame of one value, if the set has it.
fn one_value_tool(x: u8, mask: u8, set: u32) -> Option<u32>
    requires { mask < 128 }
    ensures { result ≡ value_tool mask set x }
{
    if is_for(x, plus_zero(mask), set, 2) {
        Some(2)
    } else if is_for(x, minus_zero(mask), set, 3) {
        Some(3)
    } else if holds(set, 4) {
        Some(4)
    } else {
        None
    }
}

// Uncompressed where a sample is below -2 or above 1: with the mask taken off, the low bits of 0 and -1 are 0, those of 1 and -2 are 1.
// Where the set holds tool 11, those of its rows are left too: they are below 4.
fn spread_tool(any: u8, set: u32) -> Option<u32>
    ensures { result ≡ cond (ltb (any % 128) 2) None (cond (ltb (any % 128) 4 && tools.holds set 11) None (Some 1)) }
{
    let far = any % 128;
    if far < 2 {
        None
    } else if far < 4 && holds(set, 11) {
        None
    } else {
        Some(1)
    }
}

// The tool of a frame that the first look settles. A frame of one value takes one or two octets, and no other form is as short; where
// no tool of one value is held, a frame with a sample below -2 or above 1 stays uncompressed, as it does where its samples differ.
fn plain_tool(frame: &[u8], l: Spread, mask: u8, set: u32) -> Option<u32>
    requires frame_in { (FrameIn frame.now) × (is_mask mask ≡ true) }
    requires spread_is { SpreadIs mask (get_or frame.now 0 0) frame.now l }
    ensures { SettledTool mask set frame.now result }
{
    if l.any != l.all {
        return spread_tool(l.any, set);
    }
    match one_value_tool(frame[0], mask, set) {
        Some(tool) => Some(tool),
        None => spread_tool(l.any, set),
    }
}

// The kind of a frame: of the two zeros; near, from -2 to 1 with a 1 or a -2, and of 80 samples or more, as value-location asks; short, of
// such samples but fewer; or far, with a sample below -2 or above 1.
#[derive(Clone, Copy, Drop)]
pub enum Kind {
    TwoZeros,
    Near,
    Short,
    Far,
}

// What the look tells: the tool and the bits of its form, or that the frame is left; and in either case of which kind the frame is.
#[derive(Clone, Copy, Drop)]
pub enum Settled {
    Tool(Choice, Kind),
    Of(Kind),
}

// The kind of a frame: with the mask taken off, the low bits of both zeros are 0, those of 1 and -2 are 1.
fn kind_of(frame: &[u8], l: Spread) -> Kind
    ensures { (mask first : ℕ) → SpreadIs mask first frame.now l → OfKind mask frame.now result }
{
    match l.any % 128 {
        0 => Kind::TwoZeros,
        1 if 80 <= frame.len() => Kind::Near,
        1 => Kind::Short,
        _ => Kind::Far,
    }
}

// The choice for a frame: it is looked at once.
pub fn choose(frame: &[u8], mask: u8, set: u32) -> Settled
    requires { (FrameIn frame.now) × (is_mask mask ≡ true) }
    ensures { Settles mask set frame.now result }
{
    let l = spread_of(frame, mask);
    match plain_tool(frame, l, mask, set) {
        Some(tool) => {
            let bits = whole_bits(tool, frame.len());
            let kind = kind_of(frame, l);
            Settled::Tool(Choice { tool, bits }, kind)
        }
        None => Settled::Of(kind_of(frame, l)),
    }
}
