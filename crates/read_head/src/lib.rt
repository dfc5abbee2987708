// What a frame's first octets tell: "tool, samples of the frame at the start, from its first one or two octets".
#![tactic(auto)]

ghost use Rattle.std.specs.Prelude.{◌≡◌, ℕ, ◌≤◌, List, length};
ghost use Rattle.rules.specs.Bits.{bits_of};
ghost use Rattle.rules.specs.Reading.{refuse};
ghost use Rattle.rules.specs.First.{six_or_eight};
ghost use Rattle.read_head.specs.Heads.{by_tool, head_after, head_of, Heads};

use first_octet::Begins;
use rules::{Ending, Refusal};

// The tool and the samples of a frame; of a refused one no samples, and the tool that TOOL gives.
// No Result: C is told all three of a refusal too, and `Heads` states each of them.
#[derive(Clone, Copy)]
pub struct Told {
    pub end: Ending,
    pub tool: u32,
    pub samples: usize,
}

// "TOOL (the report is the tool, 0)"; else zeros.
fn refused(why: Refusal) -> Told
    ensures { (bit : ℕ) → Heads (refuse why bit) result }
{
    Told {
        end: Err(why),
        tool: why.tool(),
        samples: 0,
    }
}

// The tool is decided: TOOL where the set does not hold it.
fn by_tool(set: u32, tool: u32, samples: usize) -> Told
    ensures { (bits : List ℕ) (i : ℕ) → Heads (by_tool set tool samples bits i) result }
{
    if first_octet::holds(set, tool) {
        Told {
            end: Ok(()),
            tool,
            samples,
        }
    } else {
        refused(Refusal::Tool(tool))
    }
}

// "SHORT where 28, 2A, 38 or 3A .. stands alone"; else which of the two it is.
fn six_told(octets: &[u8], n: usize, set: u32) -> Told
    requires { 1 ≤ length octets.now }
    ensures { (i : ℕ) → Heads (head_after set (six_or_eight n) (bits_of octets.now) i) result }
{
    // The two bits behind tool 6's mark
    match read_opening::six_not_eight(octets, read_opening::mark_at(n) + 1) {
        Err(stop) => refused(stop.why),
        Ok((t, _)) => by_tool(set, t as u32, n),
    }
}

// What the first octets tell: "SET; SHORT of no octets; PREFIX (01 too); SHORT ..; TOOL as g7110_read gives it. A pad needs no tool."
pub fn head(octets: &[u8], set: u32) -> Told
    ensures { Heads (head_of octets.now set) result }
{
    if rules::ALL_TOOLS < set {
        return refused(Refusal::Set);
    }
    if octets.is_empty() {
        return refused(Refusal::Short);
    }
    match first_octet::first_octet(octets[0]) {
        Begins::Unassigned => refused(Refusal::Prefix),
        Begins::Pad => Told {
            end: Ok(()),
            tool: 0,
            samples: 0,
        },
        Begins::Tool(t, n) => by_tool(set, t, n),
        Begins::SixOrEight(n) => six_told(octets, n, set),
    }
}
