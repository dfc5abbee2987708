// Mending a damaged greeting (document 02, R-12): what is whole is kept, and plus zeros fill it up to its total.
// What is kept, what is filled and what is refused stands in specs/Mend, what a call answers in specs/Calls.
#![tactic(auto)]

ghost use Rattle.std.specs.Prelude.{◌+◌, ◌/◌, ◌≤◌, ◌≡◌, length, replicate};
ghost use Rattle.text_lines.specs.Puts.{Puts};
ghost use Rattle.mending.specs.declared.MendRefusal.TheVariants.{Frame};
ghost use Rattle.mending.specs.Mend.{is_total, filling};
ghost use Rattle.mending.specs.Calls.{mend_refusal_number, mend_refusal-not-zero, Declines, MendGreeting};
ghost use Rattle.mending.specs.Why.{why_of, stop_number, Answers};

use rules::{Ending, Numbered, Refusal};

// TOTAL (22), or a refusal of document 01.
#[derive(Clone, Copy)]
pub enum MendRefusal {
    Frame(Refusal),
    Total,
}

impl From<Refusal> for MendRefusal {
    ghost from_gives = { λ of why. why ≡ Frame of };

    fn from(of: Refusal) -> MendRefusal {
        MendRefusal::Frame(of)
    }
}

impl Numbered for MendRefusal {
    ghost number = { mend_refusal_number };

    ghost never_zero = { mend_refusal-not-zero };

    fn number(self) -> u32 {
        match self {
            MendRefusal::Frame(of) => of.number(),
            MendRefusal::Total => 22,
        }
    }
}

pub type MendEnding = Result<(), MendRefusal>;

// The result's octets, frames and octets kept, samples filled; how the walk of what is kept stopped, and its bit. A refusal tells zeros.
// No Result: `Mends` and `Declines` state each field of a refused call too.
#[derive(Drop)]
pub struct MendAnswer {
    pub end: MendEnding,
    pub octets: usize,
    pub frames: usize,
    pub kept: usize,
    pub filled: usize,
    pub stop: Ending,
    pub bit: usize,
}

// "TOTAL if the total isn't a multiple of 40 or is above 1,000,000".
fn is_total(total: u64) -> bool
    ensures { result ≡ is_total total }
{
    total % 40 == 0 && total <= 1000000
}

// So many frames of one octet each, from a place on; the place behind them.
fn put_frames(octet: u8, count: usize, out: &mut [u8], at: usize) -> usize
    requires { at + count ≤ length out.old }
    ensures { Puts out.old at (replicate count octet) out.new result }
{
    out[at..at + count].fill(octet);
    at + count
}

// "Fill up to the total with constant plus zero frames, longest first: 320, 240, 160, 80, 40." A line for each
// length, with its frame's octet.
fn fill(left: usize, out: &mut [u8], at: usize) -> usize
    requires { at + length (filling left) ≤ length out.old }
    ensures { Puts out.old at (filling left) out.new result }
{
    let a = put_frames(0x31, left / 320, out, at);
    let b = put_frames(0x21, left % 320 / 240, out, a);
    let c = put_frames(0xC1, left % 320 % 240 / 160, out, b);
    let d = put_frames(0x81, left % 320 % 240 % 160 / 80, out, c);
    put_frames(0x41, left % 320 % 240 % 160 % 80 / 40, out, d)
}

// How many octets that is: each frame is one.
fn fill_octets(left: usize) -> usize
    ensures { result ≡ length (filling left) }
{
    left / 320
        + left % 320 / 240
        + left % 320 % 240 / 160
        + left % 320 % 240 % 160 / 80
        + left % 320 % 240 % 160 % 80 / 40
}

// A refused greeting: zeros are told, and nothing is written.
fn declined(why: MendRefusal) -> MendAnswer
    ensures { Declines why result }
{
    MendAnswer {
        end: Err(why),
        octets: 0,
        frames: 0,
        kept: 0,
        filled: 0,
        stop: Ok(()),
        bit: 0,
    }
}

// What mending a greeting would answer, with room for it: one walk, and what it kept. Nothing is written.
pub fn mend_why(octets: &[u8], law: u32, total: u64) -> MendAnswer
    ensures { Answers (why_of octets.now law total) result }
{
    if rules::MOST_LAW < law {
        return declined(MendRefusal::Frame(Refusal::Law));
    }
    if rules::LONGEST < octets.len() {
        return declined(MendRefusal::Frame(Refusal::Long));
    }
    if !is_total(total) {
        return declined(MendRefusal::Total);
    }
    let whole = total as usize;
    let w = walk::walk_on(octets, law, rules::ALL_TOOLS, 0, octets.len() + 1, whole);
    let kept = w.octets;
    let filled = whole - w.samples;
    let result = kept + fill_octets(filled);
    if rules::LONGEST < result {
        return declined(MendRefusal::Frame(Refusal::Long));
    }
    MendAnswer {
        end: Ok(()),
        octets: result,
        frames: w.frames,
        kept,
        filled,
        stop: w.end,
        bit: w.bit,
    }
}

// How the walk of what is kept stopped: 0 "where it went to the end or up to the total", which is where its room ends.
pub fn stop_number(stop: Ending) -> u32
    ensures { result ≡ stop_number stop }
{
    let number = rules::number_of(stop);
    if number == Refusal::Room.number() {
        0
    } else {
        number
    }
}

// Mending a greeting: what is kept, whole, and the filling. The result's length is known before an octet is written.
pub fn mend(octets: &[u8], law: u32, total: u64, out: &mut [u8]) -> MendAnswer
    ensures { MendGreeting octets.now law total out.old out.new result }
{
    let a = mend_why(octets, law, total);
    match a.end {
        Err(_) => a,
        Ok(()) => {
            if out.len() < a.octets {
                return declined(MendRefusal::Frame(Refusal::Room));
            }
            let to = text_lines::put_word(&octets[..a.kept], out, 0);
            fill(a.filled, out, to);
            a
        }
    }
}
