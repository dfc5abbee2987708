// Frames and losses, written one after another.

ghost use Rattle.std.specs.Prelude.{◌≡◌, [], ◌∷◌, true, ◌+◌, ◌≤◌, length, drop};
ghost use Rattle.rules.specs.Samples.{mask_of};
ghost use Rattle.text_lines.specs.Puts.{Puts};
ghost use Rattle.recording.specs.Remembered.{lost_octet};
ghost use Rattle.recording.specs.Files.{six_lengths, given_by};
ghost use Rattle.recording_write.specs.Cells.{is_given};
ghost use Rattle.recording_write.specs.Steps.{Lawful, form_by, item_by, all_by, Quiet, ItemIn};

use crate::given::{length_in, samples_in};
use recording::marking::{LOSS_FROM, LOST};

// The law and the set that forms are written by.
#[derive(Clone, Copy)]
pub struct By {
    pub law: u32,
    pub set: u32,
}

// The writer's chosen form of these samples.
fn put_form(frame: &[u8], by: By, out: &mut [u8], at: usize) -> usize
    requires frame_value { (six_lengths (length frame.now) ≡ true) × (Lawful by) }
    requires frame_in_bounds { at + length (form_by by frame.now) ≤ length out.old }
    ensures { Puts out.old at (form_by by frame.now) out.new result }
{
    let w = writer::write_samples(frame, by.law, by.set, &mut out[at..]);
    at + w.octets
}

// "a loss of unknown length as 01"
fn put_lost(out: &mut [u8], at: usize) -> usize
    requires { at + 1 ≤ length out.old }
    ensures { Puts out.old at (lost_octet ∷ []) out.new result }
{
    text_lines::put_word(&[LOST], out, at)
}

// An item. "A loss of N samples is written as the writer's chosen form of N times 0++".
fn put_item(
    samples: &[u8],
    from: usize,
    c: u16,
    by: By,
    quiet: &[u8],
    out: &mut [u8],
    at: usize,
) -> usize
    requires item_in { (ItemIn (drop from samples.now) c) × (from ≤ length samples.now) }
    requires lawful { (Lawful by) × (Quiet (mask_of by.law) quiet.now) }
    requires samples_in_bounds { at + length (item_by by c (drop from samples.now)) ≤ length out.old }
    ensures { Puts out.old at (item_by by c (drop from samples.now)) out.new result }
{
    let n = length_in(c);
    if c < LOSS_FROM {
        put_form(&samples[from..from + n], by, out, at)
    } else if n == 0 {
        put_lost(out, at)
    } else {
        put_form(&quiet[..n], by, out, at)
    }
}

// All items, in their order.
pub fn put_items(
    samples: &[u8],
    cells: &[u16],
    by: By,
    quiet: &[u8],
    out: &mut [u8],
    at: usize,
) -> usize
    requires samples_value { is_given (given_by cells.now samples.now) ≡ true }
    requires lawful { (Lawful by) × (Quiet (mask_of by.law) quiet.now) }
    requires samples_in_bounds { at + length (all_by by cells.now samples.now) ≤ length out.old }
    ensures { Puts out.old at (all_by by cells.now samples.now) out.new result }
{
    let mut from = 0;
    let mut to = at;
    for &c in cells {
        to = put_item(samples, from, c, by, quiet, out, to);
        from += samples_in(c);
    }
    to
}
