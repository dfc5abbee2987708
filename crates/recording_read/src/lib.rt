// A recording file read (document 02, R-1): item after item, a frame or a loss each. "A lost frame is handed on as lost, never as silence."
//   play_on: items from a place on, so many at most; it can be taken up again where it ended (proofs/Parts).
//   law_in: what the heading says.      read_file: a whole file.
#![tactic(auto)]

ghost use Rattle.std.specs.Prelude.{◌≡◌, ◌+◌, ◌-◌, ◌≤◌, ◌<◌, length, get_or, drop, eqb};
ghost use Rattle.rules.specs.Samples.{mask_of};
ghost use Rattle.rules.specs.Chooses.{every};
ghost use Rattle.rules.specs.Frame.{read_one};
ghost use Rattle.rules.specs.Walk.{longest};
ghost use Rattle.recording.specs.Remembered.{lost_octet, erased, headed, heading_length};
ghost use Rattle.recording.specs.Items.{lost};
ghost use Rattle.recording.specs.Calls.{ReadFile};
ghost use Rattle.recording_read.specs.Turns.{turn_of, frame_step, item_step, Turned};
ghost use Rattle.recording_read.specs.Plays.{PlayOn, as_headed, ReadItems};

use recording::marking::{HEADING, LOSS_FROM, LOST, heading_of, minus_minus, plus_plus};
use recording::{Ending, FileRead, Refusal};
use text_keyvalue::has_word;

// One item: its octets, the samples that are sound, and the item as a number.
#[derive(Clone, Copy)]
struct Turn {
    octets: usize,
    len: usize,
    cell: u16,
}

// What refused an item, and its bit.
#[derive(Clone, Copy)]
struct Stop {
    why: rules::Refusal,
    bit: usize,
}

// Items read from a place on: how many, the place where it ended, the samples of their frames, and the refusal's bit.
// No Result: what was read before a refusal is told with it.
#[derive(Drop)]
pub struct Played {
    pub end: Ending,
    pub items: usize,
    pub place: usize,
    pub samples: usize,
    pub bit: usize,
}

// The mark that stands alone: octet 01.
fn is_mark(octets: &[u8], at: usize) -> bool
    requires { at < length octets.now }
    ensures { result ≡ eqb (get_or octets.now at 0) lost_octet }
{
    octets[at] == LOST
}

// Whether the samples are all x: as many are as there are.
fn all_are(frame: &[u8], x: u8) -> bool
    requires { length frame.now ≤ 320 }
    ensures { result ≡ every (λ y. eqb y x) frame.now }
{
    write_scan::count_of(frame, x) == frame.len()
}

// Whether a frame is an erasure frame: all 0++ or all 0--. The first sample settles nearly every frame.
fn is_erased(frame: &[u8], law: u32) -> bool
    requires { length frame.now ≤ 320 }
    ensures { result ≡ erased (mask_of law) frame.now }
{
    if frame.is_empty() {
        return false;
    }
    let mask = law::mask_of(law);
    let first = frame[0];
    if first == plus_plus(mask) || first == minus_minus(mask) {
        all_are(frame, first)
    } else {
        false
    }
}

// A loss of n samples, 0 where that is not known: none of them is sound.
fn lost_turn(octets: usize, n: usize) -> Turn
    requires { n ≤ 320 }
    ensures { result ≡ turn_of (lost n) octets }
{
    Turn {
        octets,
        len: 0,
        cell: LOSS_FROM + n as u16,
    }
}

// A frame, read into a frame buffer that is lent, then judged whether it is a loss.
fn frame_turn(
    octets: &[u8],
    law: u32,
    set: u32,
    at: usize,
    room: usize,
    samples: &mut [u8; 320],
) -> Result<Turn, Stop>
    requires { (at ≤ length octets.now) × (length samples.old ≡ 320) }
    ensures { Turned (frame_step (mask_of law) (read_one (drop at octets.now) law set room)) result samples.new }
{
    let r = walk::pass(octets, law, set, at, room, samples);
    if let Err(why) = r.end {
        return Err(Stop { why, bit: r.bit });
    }
    if is_erased(&samples[..r.len], law) {
        return Ok(lost_turn(r.octets, r.len));
    }
    Ok(Turn {
        octets: r.octets,
        len: r.len,
        cell: r.len as u16,
    })
}

// The item at a place.
fn item_at(
    octets: &[u8],
    law: u32,
    set: u32,
    at: usize,
    room: usize,
    samples: &mut [u8; 320],
) -> Result<Turn, Stop>
    requires { (at < length octets.now) × (length samples.old ≡ 320) }
    ensures { Turned (item_step octets.now law set at room) result samples.new }
{
    if is_mark(octets, at) {
        return Ok(lost_turn(1, 0));
    }
    frame_turn(octets, law, set, at, room, samples)
}

// What was read so far, as an answer: said at each of three ends.
fn so_far(end: Ending, items: usize, place: usize, samples: usize, bit: usize) -> Played
    ensures { result ≡ record { end = end; items = items; place = place; samples = samples; bit = bit } }
{
    Played {
        end,
        items,
        place,
        samples,
        bit,
    }
}

// Item after item from place `at` on, so many at most; where no more are allowed it ends Done at its place. ROOM also where `cells` has no
// place left, "judged before that item is looked at".
// A `while`: it ends at a place, not at a count.
pub fn play_on(
    octets: &[u8],
    law: u32,
    set: u32,
    at: usize,
    items: usize,
    out: &mut [u8],
    cells: &mut [u16],
) -> Played
    ensures { PlayOn octets.now law set at items out.old out.new
        cells.old cells.new result }
{
    let mut samples = [0u8; 320];
    let mut place = at;
    let mut to = 0;
    let mut count = 0;
    while count < items && place < octets.len() {
        if cells.len() <= count {
            return so_far(
                Err(Refusal::Frame(rules::Refusal::Room)),
                count,
                place,
                to,
                0,
            );
        }
        match item_at(octets, law, set, place, out.len() - to, &mut samples) {
            Err(stop) => return so_far(Err(Refusal::Frame(stop.why)), count, place, to, stop.bit),
            Ok(turn) => {
                rules::copy_over(&mut out[to..to + turn.len], &samples[..turn.len]);
                cells[count] = turn.cell;
                place += turn.octets;
                to += turn.len;
                count += 1;
            }
        }
    }
    so_far(Ok(()), count, place, to, 0)
}

// What the heading says: a law, or nothing that is one.
// By `has_word`, which is `starts_with` with the paper's `begins` in its contract.
pub fn law_in(octets: &[u8]) -> Option<u32>
    ensures { as_headed result ≡ headed octets.now }
{
    if has_word(octets, 0, &heading_of(0)) {
        Some(0)
    } else if has_word(octets, 0, &heading_of(1)) {
        Some(1)
    } else {
        None
    }
}

// A file refused before its items: nothing is read.
fn unread(why: Refusal, law: u32) -> FileRead
    ensures { result ≡ record { end = Err why; law = law; items = 0; octets = 0; samples = 0; bit = 0 } }
{
    FileRead {
        end: Err(why),
        law,
        items: 0,
        octets: 0,
        samples: 0,
        bit: 0,
    }
}

// The items after the heading, all of them.
fn read_items(octets: &[u8], law: u32, set: u32, out: &mut [u8], cells: &mut [u16]) -> FileRead
    requires { (heading_length ≤ length octets.now) × (length octets.now - heading_length ≤ longest) }
    ensures { ReadItems octets.now law set out.old out.new
        cells.old cells.new result }
{
    let items = octets.len() - HEADING + 1;
    let r = play_on(&octets[HEADING..], law, set, 0, items, out, cells);
    FileRead {
        end: r.end,
        law,
        items: r.items,
        octets: r.place,
        samples: r.samples,
        bit: r.bit,
    }
}

// Reading a file: "SET, HEAD, LONG (octets after the heading above the walk's limit), then item by item".
pub fn read_file(octets: &[u8], set: u32, out: &mut [u8], cells: &mut [u16]) -> FileRead
    ensures { ReadFile octets.now set out.old out.new cells.old cells.new result }
{
    if rules::ALL_TOOLS < set {
        return unread(Refusal::Frame(rules::Refusal::Set), 0);
    }
    let Some(law) = law_in(octets) else {
        return unread(Refusal::Head, 0);
    };
    let after = octets.len() - HEADING;
    if rules::LONGEST < after {
        return unread(Refusal::Frame(rules::Refusal::Long), law);
    }
    read_items(octets, law, set, out, cells)
}
