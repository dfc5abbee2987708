// Why the writer takes the tool that it takes (document 02, R-10): each tool's state, and from the states alone the winner and by what
// it won.
// Each tool is measured once, whatever the set holds of it and whoever wins.
#![tactic(auto)]

ghost use Rattle.std.specs.Prelude.{◌≡◌, true, ◌||◌, ◌≤◌, length, take};
ghost use Rattle.rules.specs.Tools.{is_tool};
ghost use Rattle.write_scan.specs.Looks.{is_mask, FrameIn};
ghost use Rattle.reasons.specs.Why.{state_of, states_of, reasons_of, why_one};
ghost use Rattle.reasoning.specs.Best.{best_by, best_in, also_by, tie_in, empty_state, empty_reasons, why_allowed};

use first_octet::holds;
use law::mask_of;
use reasons::{Reasons, State, States, Why};
use rules::{Frame, Numbered, Refusal};
use write_measure::octets_for;
use write_offers::offer_of;

// "not in the set, doesn't apply with the first failing condition of document 01, or its octets".
fn state_of(frame: &[u8], mask: u8, set: u32, tool: u32) -> State
    requires frame_in { (FrameIn frame.now) × (is_mask mask ≡ true) }
    requires tool_value { is_tool tool ≡ true }
    ensures { result ≡ state_of mask set frame.now tool }
{
    if !holds(set, tool) {
        return State::Out;
    }
    match offer_of(frame, mask, tool) {
        Ok(bits) => State::Fits(octets_for(bits) as u32),
        Err(why) => State::No(why.number()),
    }
}

// "list tools 1 to 7 in order", and 11 after them (R-14).
// Each by its name, here and in those below, as in `States`.
fn states_of(frame: &[u8], mask: u8, set: u32) -> States
    requires { (FrameIn frame.now) × (is_mask mask ≡ true) }
    ensures { result ≡ states_of mask set frame.now }
{
    States {
        uncompressed: state_of(frame, mask, set, 1),
        plus: state_of(frame, mask, set, 2),
        minus: state_of(frame, mask, set, 3),
        constant: state_of(frame, mask, set, 4),
        binary: state_of(frame, mask, set, 5),
        rice: state_of(frame, mask, set, 6),
        located: state_of(frame, mask, set, 7),
        fractional: state_of(frame, mask, set, 11),
    }
}

// A tool that fits, and its octets.
#[derive(Clone, Copy)]
struct Best {
    tool: u32,
    octets: u32,
}

// The tool, if it fits and its octets are not more; else what was best before it.
// An `if` in the arm: a guard there is no plainer.
fn better_of(best: Best, tool: u32, state: State) -> Best
    ensures { result ≡ best_by best tool state }
{
    match state {
        State::Out => best,
        State::No(_) => best,
        State::Fits(octets) => {
            if best.octets < octets {
                return best;
            }
            Best { tool, octets }
        }
    }
}

// "fewest octets", and on equal octets the tie order: from uncompressed on, each tool takes its place where it is not more.
fn winner_of(s: States, n: usize) -> Best
    requires { n ≤ 320 }
    ensures { result ≡ best_in s n }
{
    let first = Best {
        tool: 1,
        octets: n as u32 + 1,
    };
    let eleven = better_of(first, 11, s.fractional);
    let seven = better_of(eleven, 7, s.located);
    let six = better_of(seven, 6, s.rice);
    let five = better_of(six, 5, s.binary);
    let four = better_of(five, 4, s.constant);
    let three = better_of(four, 3, s.minus);
    better_of(three, 2, s.plus)
}

// "another tool in the set needs as few".
// An `if` in the arm, as of `better_of`.
fn also_needs(best: Best, tool: u32, state: State) -> bool
    ensures { result ≡ also_by best tool state }
{
    if tool == best.tool {
        return false;
    }
    match state {
        State::Out => false,
        State::No(_) => false,
        State::Fits(octets) => octets == best.octets,
    }
}

// The tool, or one that was asked before it.
fn or_needs(best: Best, tool: u32, state: State, other: bool) -> bool
    ensures { result ≡ also_by best tool state || other }
{
    also_needs(best, tool, state) || other
}

// "by=tie exactly when another tool in the set needs as few".
fn tie_in(s: States, best: Best) -> bool
    ensures { result ≡ tie_in s best }
{
    let eleven = or_needs(best, 11, s.fractional, false);
    let seven = or_needs(best, 7, s.located, eleven);
    let six = or_needs(best, 6, s.rice, seven);
    let five = or_needs(best, 5, s.binary, six);
    let four = or_needs(best, 4, s.constant, five);
    let three = or_needs(best, 3, s.minus, four);
    let two = or_needs(best, 2, s.plus, three);
    or_needs(best, 1, s.uncompressed, two)
}

// The reasons for a frame that has samples.
fn reasons_of(frame: &[u8], mask: u8, set: u32) -> Reasons
    requires { (FrameIn frame.now) × (is_mask mask ≡ true) }
    ensures { result ≡ reasons_of mask set frame.now }
{
    let states = states_of(frame, mask, set);
    let best = winner_of(states, frame.len());
    Reasons {
        states,
        winner: best.tool,
        tie: tie_in(states, best),
    }
}

// "A frame of no samples fails condition 1 of every tool in the set".
fn empty_state(set: u32, tool: u32) -> State
    ensures { result ≡ empty_state set tool }
{
    if holds(set, tool) {
        State::No(1)
    } else {
        State::Out
    }
}

// "and its winner is tool 0 by octets".
fn empty_reasons(set: u32) -> Reasons
    ensures { result ≡ empty_reasons set }
{
    Reasons {
        states: States {
            uncompressed: empty_state(set, 1),
            plus: empty_state(set, 2),
            minus: empty_state(set, 3),
            constant: empty_state(set, 4),
            binary: empty_state(set, 5),
            rice: empty_state(set, 6),
            located: empty_state(set, 7),
            fractional: empty_state(set, 11),
        },
        winner: 0,
        tie: false,
    }
}

// The first n samples as a frame. LENGTH comes after LAW and SET.
// n stands beside the samples: it is the caller's, and LENGTH is judged before a slice is made of it.
fn why_allowed(samples: &[u8], n: usize, mask: u8, set: u32) -> Why
    requires { (n ≤ 320 → n ≤ length samples.now) × (is_mask mask ≡ true) }
    ensures { result ≡ why_allowed n (take n samples.now) mask set }
{
    if n == 0 {
        return Ok(empty_reasons(set));
    }
    if !rules::is_length(n) {
        return Err(Refusal::Length);
    }
    let frame = &samples[..n];
    Ok(reasons_of(frame, mask, set))
}

// The first n samples as a frame: "Refusals as for the writer, ROOM left out."
// n stands beside, as of `why_allowed`.
fn why_some(samples: &[u8], n: usize, law: u32, set: u32) -> Why
    requires { n ≤ 320 → n ≤ length samples.now }
    ensures { result ≡ why_one n samples.now law set }
{
    rules::guard_writer(law, set)?;
    why_allowed(samples, n, mask_of(law), set)
}

// Why the writer takes its tool for a frame. Samples past the length change nothing.
pub fn why_frame(frame: Frame, law: u32, set: u32) -> Why
    ensures { result ≡ why_one frame.len frame.samples law set }
{
    why_some(&frame.samples, frame.len, law, set)
}

// The same for the samples of a slice, whose length is the frame's.
pub fn why_samples(samples: &[u8], law: u32, set: u32) -> Why
    ensures { result ≡ why_one (length samples.now) samples.now law set }
{
    why_some(samples, samples.len(), law, set)
}
