// Why the writer takes the tool that it takes (document 02, R-10): the answer as a struct, and its lines.
#![tactic(auto)]

ghost use Rattle.std.specs.Prelude.{◌+◌, ◌≤◌, length};
ghost use Rattle.rules.specs.Listing.{field};
ghost use Rattle.text_lines.specs.Puts.{Puts};
ghost use Rattle.reasons.specs.Lines.{fields_line, tool_line, by_word, winner_line, lines_of};
ghost use Rattle.reasons.specs.Calls.{Prints};

use rules::Refusal;

// "not in the set, doesn't apply with the first failing condition of document 01, or its octets".
// The condition is the paper's number, and is printed as such.
#[derive(Clone, Copy)]
pub enum State {
    Out,
    No(u32),
    Fits(u32),
}

// "list tools 1 to 7 in order", and 11 after them (R-14): the state of each.
// No array: the paper's listing names the tools, and the theorem `lines-back` goes by the eight names.
#[derive(Clone, Copy)]
pub struct States {
    pub uncompressed: State,
    pub plus: State,
    pub minus: State,
    pub constant: State,
    pub binary: State,
    pub rice: State,
    pub located: State,
    pub fractional: State,
}

// "Then name the winner .., and whether it won by octets or by the tie order."
// The winner is the paper's number of a tool, and is printed as such.
#[derive(Clone, Copy)]
pub struct Reasons {
    pub states: States,
    pub winner: u32,
    pub tie: bool,
}

// The reasons, or the writer's refusal.
pub type Why = Result<Reasons, Refusal>;

// A word and a number of at most ten digits.
fn put_short(word: &[u8], n: u32, out: &mut [u8], at: usize) -> usize
    requires { at + length word.now + 20 ≤ length out.old }
    ensures puts { Puts out.old at (field word.now n) out.new result }
    ensures most { result ≤ at + length word.now + 10 }
{
    text_lines::put_field(word, n as usize, out, at)
}

// The fields of a tool's line: its state's word, the condition that fails, its octets.
fn put_fields(tool: u32, word: &[u8], why: u32, octets: u32, out: &mut [u8], at: usize) -> usize
    requires { (length word.now ≤ 4) × (at + 70 ≤ length out.old) }
    ensures puts { Puts out.old at (fields_line tool word.now why octets) out.new result }
    ensures most { result ≤ at + 60 }
{
    let a = put_short(b"tool=", tool, out, at);
    let b = text_lines::put_word(b" state=", out, a);
    let c = text_lines::put_word(word, out, b);
    let d = put_short(b" why=", why, out, c);
    let e = put_short(b" octets=", octets, out, d);
    text_lines::put_word(b"\n", out, e)
}

// "state out, no or fits; why 0 except for no, octets 0 except for fits".
fn put_tool(tool: u32, state: State, out: &mut [u8], at: usize) -> usize
    requires { at + 70 ≤ length out.old }
    ensures puts { Puts out.old at (tool_line tool state) out.new result }
    ensures most { result ≤ at + 60 }
{
    match state {
        State::Out => put_fields(tool, b"out", 0, 0, out, at),
        State::No(why) => put_fields(tool, b"no", why, 0, out, at),
        State::Fits(octets) => put_fields(tool, b"fits", 0, octets, out, at),
    }
}

// "by=octets", or "by=tie".
fn put_by(tie: bool, out: &mut [u8], at: usize) -> usize
    requires { at + 6 ≤ length out.old }
    ensures puts { Puts out.old at (by_word tie) out.new result }
    ensures most { result ≤ at + 6 }
{
    if tie {
        text_lines::put_word(b"tie", out, at)
    } else {
        text_lines::put_word(b"octets", out, at)
    }
}

// "and last `winner=6 by=octets`".
fn put_winner(winner: u32, tie: bool, out: &mut [u8], at: usize) -> usize
    requires { at + 32 ≤ length out.old }
    ensures puts { Puts out.old at (winner_line winner tie) out.new result }
    ensures most { result ≤ at + 28 }
{
    let a = put_short(b"winner=", winner, out, at);
    let b = text_lines::put_word(b" by=", out, a);
    let c = put_by(tie, out, b);
    text_lines::put_word(b"\n", out, c)
}

// All lines from place `at` on, of which there are at most 508 octets.
pub fn put_reasons(r: Reasons, out: &mut [u8], at: usize) -> usize
    requires { at + 512 ≤ length out.old }
    ensures puts { Puts out.old at (lines_of r) out.new result }
    ensures most { result ≤ at + 508 }
{
    let s = r.states;
    let a = put_tool(1, s.uncompressed, out, at);
    let b = put_tool(2, s.plus, out, a);
    let c = put_tool(3, s.minus, out, b);
    let d = put_tool(4, s.constant, out, c);
    let e = put_tool(5, s.binary, out, d);
    let f = put_tool(6, s.rice, out, e);
    let g = put_tool(7, s.located, out, f);
    let h = put_tool(11, s.fractional, out, g);
    put_winner(r.winner, r.tie, out, h)
}

// The lines at the start of the lent octets; answers how many octets they are. The rest stays as lent.
pub fn text_of(r: Reasons, text: &mut [u8; 512]) -> usize
    ensures { Prints r text.old text.new result }
{
    put_reasons(r, text, 0)
}
