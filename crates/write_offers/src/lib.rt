// Each tool's offer for a frame: whether it applies, the first of its conditions that fails, and the bits of its form. And the tie order:
// which of two offers is taken.
#![tactic(auto)]

ghost use Rattle.std.specs.Prelude.{◌≡◌, true, ◌+◌, ◌≤◌, ◌<◌, length, eqb};
ghost use Rattle.rules.specs.Tools.{is_tool};
ghost use Rattle.rules.specs.Chooses.{every, least_of, greatest_of};
ghost use Rattle.write_scan.specs.Looks.{near, is_mask, FrameIn};
ghost use Rattle.write_offers.specs.Offers.{condition_told, condition-not-zero, whole_bits, offer_if, OfferIs, ZerosCounted, NearIs};
ghost use Rattle.write_offers.specs.Ties.{BetterIs};

use law::{minus_zero, plus_zero};
use rules::Numbered;
use write_fractional::reducing::{bits_of, row_of};
use write_located::{Counted, Located, located_of, tally_of, zero_leads};
use write_scan::{count_of, others, spread_of};
use write_zeros::rice_of;

// A tool, and the bits of its form.
// The tool is the paper's number, and is printed as such.
#[derive(Clone, Copy, Drop)]
pub struct Choice {
    pub tool: u32,
    pub bits: usize,
}

// The bits of tools 1 to 4: the first octet, and with it the samples, or the one that all are.
pub fn whole_bits(tool: u32, n: usize) -> usize
    requires { n ≤ 320 }
    ensures { result ≡ whole_bits tool n }
{
    match tool {
        1 => 8 + 8 * n,
        4 => 16,
        _ => 8,
    }
}

// Uncompressed, from which each choice goes on.
pub fn uncompressed_of(n: usize) -> Choice
    requires { n ≤ 320 }
    ensures { result ≡ record { tool = 1; bits = whole_bits 1 n } }
{
    Choice {
        tool: 1,
        bits: whole_bits(1, n),
    }
}

// Binary: N bits, and the first octet.
pub fn binary_bits(n: usize) -> usize
    requires { n ≤ 320 }
    ensures { result ≡ 8 + n }
{
    8 + n
}

// The tool, if it is offered and its octets are not more; else what was best before it.
pub fn better(best: Choice, tool: u32, offered: bool, bits: usize) -> Choice
    requires { (best.bits ≤ 1000000000) × (bits ≤ 1000000000) }
    ensures { BetterIs best tool offered bits result }
{
    if !offered {
        return best;
    }
    if (best.bits + 7) / 8 < (bits + 7) / 8 {
        return best;
    }
    Choice { tool, bits }
}

// "Value-location's conditions are 1 the length, 2 the row, 3 the frequency of 0; other tools have one, numbered 1."
#[derive(Clone, Copy, Drop)]
pub enum Condition {
    Only,
    Length,
    Row,
    Frequency,
}

impl Numbered for Condition {
    ghost number = { condition_told };

    ghost never_zero = { condition-not-zero };

    fn number(self) -> u32 {
        match self {
            Condition::Only => 1,
            Condition::Length => 1,
            Condition::Row => 2,
            Condition::Frequency => 3,
        }
    }
}

// A tool's offer: the bits of its form, or the first of its conditions that fails.
pub type Offer = Result<usize, Condition>;

// A tool of one condition, and its bits where that is met.
fn offer_if(applies: bool, bits: usize) -> Offer
    ensures { result ≡ offer_if applies bits }
{
    if applies {
        Ok(bits)
    } else {
        Err(Condition::Only)
    }
}

// "Plus, minus, constant": all samples are this one.
fn one_value_offer(frame: &[u8], x: u8, bits: usize) -> Offer
    requires { FrameIn frame.now }
    ensures { result ≡ offer_if (every (λ y. eqb y x) frame.now) bits }
{
    offer_if(count_of(frame, x) == frame.len(), bits)
}

// How many samples are plus zero, and how many are minus zero.
#[derive(Clone, Copy, Drop)]
struct TwoCounts {
    plus: usize,
    minus: usize,
}

fn zeros_in(frame: &[u8], mask: u8) -> TwoCounts
    requires { (FrameIn frame.now) × (mask < 128) }
    ensures { ZerosCounted mask frame.now result }
{
    TwoCounts {
        plus: count_of(frame, plus_zero(mask)),
        minus: count_of(frame, minus_zero(mask)),
    }
}

// "Binary and Rice apply to frames of the two zeros only."
fn binary_offer(frame: &[u8], mask: u8) -> Offer
    requires { (FrameIn frame.now) × (mask < 128) }
    ensures { OfferIs mask 5 frame.now result }
{
    let z = zeros_in(frame, mask);
    offer_if(z.plus + z.minus == frame.len(), binary_bits(frame.len()))
}

// Rice, with the mark and S that need fewest bits.
fn rice_offer(frame: &[u8], mask: u8) -> Offer
    requires { (FrameIn frame.now) × (mask < 128) }
    ensures { OfferIs mask 6 frame.now result }
{
    let z = zeros_in(frame, mask);
    if z.plus + z.minus != frame.len() {
        return Err(Condition::Only);
    }
    let row = others(frame, plus_zero(mask));
    let mut runs = [0u16; 321];
    let rice = rice_of(frame.len(), z.plus, z.minus, &row, &mut runs);
    Ok(rice.bits)
}

// What value-location would write of samples from -2 to 1, or the condition that fails: "least and greatest are a row's, N fits it, and no
// value is more frequent than 0". The runs of its values are left in the lent arrays.
pub fn near_of(
    frame: &[u8],
    mask: u8,
    a: &mut [u16; 321],
    b: &mut [u16; 321],
    c: &mut [u16; 321],
) -> Result<Located, Condition>
    requires frame_in { (FrameIn frame.now) × ((is_mask mask ≡ true) × (80 ≤ length frame.now)) }
    requires samples_value { near (least_of mask frame.now) (greatest_of mask frame.now) ≡ true }
    ensures { NearIs mask frame.now result a.new b.new c.new }
{
    let tally = tally_of(frame, mask);
    match write_located::row_of(tally, frame.len()) {
        None => Err(Condition::Row),
        Some(row) => {
            if !zero_leads(tally) {
                return Err(Condition::Frequency);
            }
            Ok(located_of(frame, mask, Counted { tally, row }, a, b, c))
        }
    }
}

// The same as an offer.
fn near_offer(frame: &[u8], mask: u8) -> Offer
    requires frame_in { (FrameIn frame.now) × ((is_mask mask ≡ true) × (80 ≤ length frame.now)) }
    requires samples_value { near (least_of mask frame.now) (greatest_of mask frame.now) ≡ true }
    ensures { OfferIs mask 7 frame.now result }
{
    let mut a = [0u16; 321];
    let mut b = [0u16; 321];
    let mut c = [0u16; 321];
    let located = near_of(frame, mask, &mut a, &mut b, &mut c)?;
    Ok(located.bits)
}

// "Value-location's conditions are 1 the length, 2 the row, 3 the frequency of 0". A frame with a sample below -2 or above 1 has no row.
fn located_offer(frame: &[u8], mask: u8) -> Offer
    requires { (FrameIn frame.now) × (is_mask mask ≡ true) }
    ensures { OfferIs mask 7 frame.now result }
{
    if frame.len() < 80 {
        return Err(Condition::Length);
    }
    let l = spread_of(frame, mask);
    if 2 <= l.any % 128 {
        return Err(Condition::Row);
    }
    near_offer(frame, mask)
}

// Fractional-bit (document 02, R-14): its one condition is that table 7-28 has the frame's row for this length.
fn fractional_offer(frame: &[u8], mask: u8) -> Offer
    requires { (FrameIn frame.now) × (mask < 128) }
    ensures { OfferIs mask 11 frame.now result }
{
    match row_of(frame, mask) {
        Some(row) => Ok(bits_of(row, frame.len())),
        None => Err(Condition::Only),
    }
}

// Tools 1 to 4: whole octets, by the value that all samples are to be.
fn whole_offer(frame: &[u8], mask: u8, tool: u32) -> Offer
    requires frame_in { (FrameIn frame.now) × (mask < 128) }
    requires le_tool { (1 ≤ tool) × (tool ≤ 4) }
    ensures { OfferIs mask tool frame.now result }
{
    let bits = whole_bits(tool, frame.len());
    match tool {
        1 => Ok(bits),
        2 => one_value_offer(frame, plus_zero(mask), bits),
        3 => one_value_offer(frame, minus_zero(mask), bits),
        _ => one_value_offer(frame, frame[0], bits),
    }
}

// A tool's offer for a frame, whatever the frame is and whatever the set holds.
pub fn offer_of(frame: &[u8], mask: u8, tool: u32) -> Offer
    requires frame_in { (FrameIn frame.now) × (is_mask mask ≡ true) }
    requires tool_value { is_tool tool ≡ true }
    ensures { OfferIs mask tool frame.now result }
{
    match tool {
        1..=4 => whole_offer(frame, mask, tool),
        5 => binary_offer(frame, mask),
        6 => rice_offer(frame, mask),
        7 => located_offer(frame, mask),
        _ => fractional_offer(frame, mask),
    }
}
