// The octets of forms that are not written yet: "Nothing is written by a refused call: measure first".

ghost use Rattle.std.specs.Prelude.{◌≡◌, true, suc, ◌≤◌, length, drop};
ghost use Rattle.rules.specs.Samples.{mask_of};
ghost use Rattle.recording.specs.Files.{six_lengths, given_by};
ghost use Rattle.recording_write.specs.Cells.{length_in, most_for, is_given};
ghost use Rattle.recording_write.specs.Steps.{Lawful, form_by, item_by, all_by, Quiet, ItemIn, Measures, Settles};

use crate::given::{length_in, samples_in};
use crate::items::By;
use recording::marking::{HEADING, LOSS_FROM};
use rules::LONGEST;

// The most octets that a form has: "a written frame has 1 to N + 1 octets".
const FORM_MOST: usize = 321;

// The writer's chosen form of these samples, planned and put into a room of its own: the output is not touched.
fn form_octets(frame: &[u8], by: By) -> usize
    requires { (six_lengths (length frame.now) ≡ true) × (Lawful by) }
    ensures { (result ≡ length (form_by by frame.now)) × (result ≤ 321) }
{
    let mut room = [0u8; FORM_MOST];
    writer::write_samples(frame, by.law, by.set, &mut room).octets
}

// An item: a frame, a loss of unknown length, or one of a length.
// Apart from `put_item`: that one writes, this one measures into a room of its own.
fn item_octets(samples: &[u8], from: usize, c: u16, by: By, quiet: &[u8]) -> usize
    requires item_in { (ItemIn (drop from samples.now) c) × (from ≤ length samples.now) }
    requires lawful { (Lawful by) × (Quiet (mask_of by.law) quiet.now) }
    ensures { (result ≡ length (item_by by c (drop from samples.now))) × (result ≤ 200000000) }
{
    let n = length_in(c);
    if c < LOSS_FROM {
        form_octets(&samples[from..from + n], by)
    } else if n == 0 {
        1
    } else {
        form_octets(&quiet[..n], by)
    }
}

// All items, or as many as are LONG together.
fn all_octets(samples: &[u8], cells: &[u16], by: By, quiet: &[u8]) -> usize
    requires samples_value { is_given (given_by cells.now samples.now) ≡ true }
    requires lawful { (Lawful by) × (Quiet (mask_of by.law) quiet.now) }
    ensures { Measures (length (all_by by cells.now samples.now)) result }
{
    let mut from = 0;
    let mut sum = 0;
    for &c in cells {
        if LONGEST < sum {
            return sum;
        }
        sum += item_octets(samples, from, c, by, quiet);
        from += samples_in(c);
    }
    sum
}

// "A written frame has 1 to N + 1 octets", and so has a loss.
fn item_most(c: u16) -> usize
    ensures { (result ≡ suc (length_in c)) × (result ≤ 65536) }
{
    length_in(c) + 1
}

// The most that all items may have, or as many of these octets as are LONG together. As `all_octets`, but no sample is looked at.
// Apart from it: of a closure that changes what it captures the proof learns nothing of what it returned.
fn most_octets(cells: &[u16]) -> usize
    ensures { Measures (most_for cells.now) result }
{
    let mut sum = 0;
    for &c in cells {
        if LONGEST < sum {
            return sum;
        }
        sum += item_most(c);
    }
    sum
}

// What settles LONG and ROOM: the most that the items may have, where that fits; else their octets, for which every frame is planned.
pub fn octets_to_judge(samples: &[u8], cells: &[u16], by: By, quiet: &[u8], room: usize) -> usize
    requires samples_value { is_given (given_by cells.now samples.now) ≡ true }
    requires lawful { (Lawful by) × (Quiet (mask_of by.law) quiet.now) }
    ensures { Settles (length (all_by by cells.now samples.now)) room result }
{
    let most = most_octets(cells);
    if most <= LONGEST && HEADING + most <= room {
        most
    } else {
        all_octets(samples, cells, by, quiet)
    }
}
