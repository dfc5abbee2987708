// Writing one frame: plan, room, put. The chosen form alone is put out.
#![tactic(auto)]

ghost use Rattle.std.specs.Prelude.{◌≡◌, true, Ok, ◌*◌, ◌/◌, ◌≤◌, length};
ghost use Rattle.rules.specs.Bits.{bits_of};
ghost use Rattle.rules.specs.Refusals.{verdict};
ghost use Rattle.rules.specs.Tools.{writer_asks};
ghost use Rattle.rules.specs.Chooses.{declined, form_of};
ghost use Rattle.rules.specs.Calls.{Writes, WriteFrame, WriteSamples};
ghost use Rattle.write_scan.specs.Looks.{two_zeros, is_mask, FrameIn};
ghost use Rattle.write_choice.specs.Plans.{Left, NearFrame, KindIs, Chosen, PlainIs};
ghost use Rattle.write_forms.specs.Forms.{whole_octets, RiceReady, rice_form_of, binary_form, LocatedReady, plan_form};
ghost use Rattle.writer.specs.Answers.{Tells, fitting, fitted, pad, full, plain, WritesForm, WritesOne, PacksForm, PutsChosen};

use law::{mask_of, plus_zero};
use rules::{Frame, Refusal, WriteAnswer, guard_writer, is_length};
use write_choice::last::last_of;
use write_choice::near::near_plan;
use write_choice::plans::{NearPlan, Plain, ZerosPlan};
use write_choice::settle::{Kind, Settled, choose};
use write_choice::two_zeros::zeros_plan;
use write_forms::{put_binary, put_fractional, put_located, put_rice, put_whole};
use write_located::Located;
use write_measure::octets_for;
use write_offers::Choice;
use write_scan::others;
use write_scan::row::Row;
use write_zeros::Zeros;

// A refusal: no octets, no bits, no tool.
fn refused(why: Refusal) -> WriteAnswer
    ensures { Tells (declined why) result }
{
    WriteAnswer {
        end: Err(why),
        octets: 0,
        bits: 0,
        tool: 0,
    }
}

// What was put out.
fn wrote(octets: usize, bits: usize, tool: u32) -> WriteAnswer
    ensures { result ≡ record { end = Ok tt; octets = octets; bits = bits; tool = tool } }
{
    WriteAnswer {
        end: Ok(()),
        octets,
        bits,
        tool,
    }
}

// "Zero samples give one octet 00."
fn write_pad(out: &mut [u8]) -> WriteAnswer
    ensures { Writes (fitting (length out.old) pad) result out.old out.new }
{
    if out.len() == 0 {
        return refused(Refusal::Room);
    }
    out[0] = 0;
    wrote(1, 8, 0)
}

// A plan that needs no runs put out: whole octets, or fractional-bit with its row. Their number comes back.
fn put_plain(out: &mut [u8], frame: &[u8], mask: u8, p: Plain) -> usize
    requires frame_in { (FrameIn frame.now) × (is_mask mask ≡ true) }
    requires plain_is { PlainIs mask frame.now p }
    requires samples_len_bound { length (form_of mask p.choice.tool frame.now) ≤ 8 * length out.old }
    ensures { PacksForm mask p.choice.tool frame.now out.old out.new result }
{
    if p.choice.tool == 11 {
        put_fractional(out, frame, mask, p.row)
    } else {
        put_whole(out, frame, p.choice.tool)
    }
}

// "ROOM means the chosen form's octets for a writer": a form is put where there is room for it, else nothing is. Such a plan.
fn fit_plain(out: &mut [u8], frame: &[u8], mask: u8, set: u32, p: Plain) -> Choice
    requires frame_in { (FrameIn frame.now) × (is_mask mask ≡ true) }
    requires chosen { (Chosen mask set frame.now p.choice) × (PlainIs mask frame.now p) }
    ensures { PutsChosen mask set frame.now out.old out.new result }
{
    if out.len() < octets_for(p.choice.bits) {
        return p.choice;
    }
    put_plain(out, frame, mask, p);
    p.choice
}

// Room, and then binary put, from the row of flags.
fn fit_binary(out: &mut [u8], n: usize, bits: usize, row: &Row)
    requires { (bits ≡ length (binary_form n row.now)) × (bits ≤ 1000000000) }
    ensures { out.new ≡ fitted (binary_form n row.now) out.old }
{
    if octets_for(bits) <= out.len() {
        put_binary(out, n, row);
    }
}

// Room, and then Rice put, from its runs.
fn fit_rice(out: &mut [u8], n: usize, plan: Zeros, runs: &[u16; 321])
    requires rice_ready { (RiceReady n plan runs.now) × (plan.bits ≤ 1000000000) }
    requires bits_value { plan.bits ≡ length (rice_form_of n plan runs.now) }
    ensures { out.new ≡ fitted (rice_form_of n plan runs.now) out.old }
{
    if octets_for(plan.bits) <= out.len() {
        put_rice(out, n, plan, runs);
    }
}

// A frame of the two zeros: plan, room, put. Its flags are gathered once, for the plan and for binary.
fn fit_zeros(out: &mut [u8], frame: &[u8], mask: u8, set: u32) -> Choice
    requires frame_in { (FrameIn frame.now) × (is_mask mask ≡ true) }
    requires left { (Left mask set frame.now) × (two_zeros mask frame.now ≡ true) }
    ensures { PutsChosen mask set frame.now out.old out.new result }
{
    let row = others(frame, plus_zero(mask));
    let mut runs = [0u16; 321];
    let plan = zeros_plan(frame, mask, set, &row, &mut runs);
    match plan {
        ZerosPlan::Whole(choice) => fit_plain(out, frame, mask, set, Plain { choice, row: 0 }),
        ZerosPlan::Binary(bits) => {
            fit_binary(out, frame.len(), bits, &row);
            Choice { tool: 5, bits }
        }
        ZerosPlan::Rice(z) => {
            fit_rice(out, frame.len(), z, &runs);
            Choice {
                tool: 6,
                bits: z.bits,
            }
        }
    }
}

// Room, and then value-location put, from the runs of its values.
fn fit_values(
    out: &mut [u8],
    n: usize,
    plan: Located,
    a: &[u16; 321],
    b: &[u16; 321],
    c: &[u16; 321],
)
    requires located_ready { (LocatedReady plan a.now b.now c.now) × (plan.bits ≤ 1000000000) }
    requires bits_value { plan.bits ≡ length (plan_form n plan a.now b.now c.now) }
    ensures { out.new ≡ fitted (plan_form n plan a.now b.now c.now) out.old }
{
    if octets_for(plan.bits) <= out.len() {
        put_located(out, n, plan, a, b, c);
    }
}

// A frame from -2 to 1 that has a 1 or a -2: plan, room, put.
fn fit_near(out: &mut [u8], frame: &[u8], mask: u8, set: u32) -> Choice
    requires frame_in { (FrameIn frame.now) × (is_mask mask ≡ true) }
    requires left { (Left mask set frame.now) × (NearFrame mask frame.now) }
    ensures { PutsChosen mask set frame.now out.old out.new result }
{
    let mut a = [0u16; 321];
    let mut b = [0u16; 321];
    let mut c = [0u16; 321];
    let plan = near_plan(frame, mask, set, &mut a, &mut b, &mut c);
    match plan {
        NearPlan::Last(p) => fit_plain(out, frame, mask, set, p),
        NearPlan::Values(w) => {
            fit_values(out, frame.len(), w, &a, &b, &c);
            Choice {
                tool: 7,
                bits: w.bits,
            }
        }
    }
}

// A frame that the look leaves: what is planned is put out where it fits, and comes back in any case. Arrays for runs are made only
// where a plan needs them.
fn fit_left(out: &mut [u8], frame: &[u8], mask: u8, set: u32, kind: Kind) -> Choice
    requires frame_in { (FrameIn frame.now) × (is_mask mask ≡ true) }
    requires kind_is { KindIs mask set frame.now kind }
    ensures { PutsChosen mask set frame.now out.old out.new result }
{
    match kind {
        Kind::TwoZeros => fit_zeros(out, frame, mask, set),
        Kind::Near => fit_near(out, frame, mask, set),
        Kind::Short | Kind::Far => {
            let last = last_of(frame, mask, set);
            fit_plain(out, frame, mask, set, last)
        }
    }
}

// A frame that the look settles: its answer at once.
fn write_whole(out: &mut [u8], frame: &[u8], c: Choice) -> WriteAnswer
    requires frame_in { (FrameIn frame.now) × ((1 ≤ c.tool) × (c.tool ≤ 4)) }
    requires bits_value { (c.bits ≡ length (bits_of (whole_octets c.tool frame.now))) × (c.bits ≤ 1000000000) }
    ensures { WritesForm (plain c.tool frame.now) out.old out.new result }
{
    if out.len() < octets_for(c.bits) {
        return refused(Refusal::Room);
    }
    let octets = put_whole(out, frame, c.tool);
    wrote(octets, c.bits, c.tool)
}

// The answer for what was planned: ROOM, or that it was put out.
fn write_left(out: &mut [u8], frame: &[u8], mask: u8, set: u32, kind: Kind) -> WriteAnswer
    requires frame_in { (FrameIn frame.now) × (is_mask mask ≡ true) }
    requires kind_is { KindIs mask set frame.now kind }
    ensures { WritesForm (full mask set frame.now) out.old out.new result }
{
    let choice = fit_left(out, frame, mask, set, kind);
    let octets = octets_for(choice.bits);
    if out.len() < octets {
        return refused(Refusal::Room);
    }
    wrote(octets, choice.bits, choice.tool)
}

// The answer for a frame: it is looked at, and settled or planned.
fn write_chosen(out: &mut [u8], frame: &[u8], mask: u8, set: u32) -> WriteAnswer
    requires { (FrameIn frame.now) × (is_mask mask ≡ true) }
    ensures { WritesForm (full mask set frame.now) out.old out.new result }
{
    match choose(frame, mask, set) {
        Settled::Tool(choice, _) => write_whole(out, frame, choice),
        Settled::Of(kind) => write_left(out, frame, mask, set, kind),
    }
}

// The first n samples as a frame. After LAW and SET: LENGTH, and ROOM last.
// n stands beside the samples: it is the caller's, and LENGTH is judged before a slice is made of it.
fn write_lawful(samples: &[u8], n: usize, law: u32, set: u32, out: &mut [u8]) -> WriteAnswer
    requires { (verdict (writer_asks law set) ≡ Ok tt) × (n ≤ 320 → n ≤ length samples.now) }
    ensures { WritesOne n samples.now law set out.old out.new result }
{
    if n == 0 {
        return write_pad(out);
    }
    if !is_length(n) {
        return refused(Refusal::Length);
    }
    let frame = &samples[..n];
    write_chosen(out, frame, mask_of(law), set)
}

// The first n samples as a frame: "Order: LAW, SET, then LENGTH".
// n stands beside, as of `write_lawful`.
fn write_some(samples: &[u8], n: usize, law: u32, set: u32, out: &mut [u8]) -> WriteAnswer
    requires { n ≤ 320 → n ≤ length samples.now }
    ensures { WritesOne n samples.now law set out.old out.new result }
{
    match guard_writer(law, set) {
        Ok(()) => write_lawful(samples, n, law, set, out),
        Err(why) => refused(why),
    }
}

// Writing one frame. Samples past the length change nothing.
pub fn write_frame(frame: Frame, law: u32, set: u32, out: &mut [u8]) -> WriteAnswer
    ensures { WriteFrame frame law set out.old out.new result }
{
    write_some(&frame.samples, frame.len, law, set, out)
}

// Writing the samples of a slice, whose length is the frame's.
pub fn write_samples(samples: &[u8], law: u32, set: u32, out: &mut [u8]) -> WriteAnswer
    ensures { WriteSamples samples.now law set out.old out.new result }
{
    write_some(samples, samples.len(), law, set, out)
}
