// A recording file piece by piece (document 02, R-1): what its heading says, and one item at a place behind it.
//   file_head: the law.      next: one item, as recording_read takes it (proofs/NextIs).
#![tactic(auto)]

ghost use Rattle.std.specs.Prelude.{◌≡◌, List, cond, ℕ, ◌-◌, ◌<◌, ◌≤◌, leb, length, drop};
ghost use Rattle.rules.specs.Refusals.{verdict};
ghost use Rattle.rules.specs.Walk.{walk_asks};
ghost use Rattle.read_head.specs.Heads.{head_of, head_tool};
ghost use Rattle.recording.specs.declared.Refusal.TheVariants.{Frame};
ghost use Rattle.recording.specs.Remembered.{headed};
ghost use Rattle.recording.specs.Items.{loss_from};
ghost use Rattle.recording_next.specs.Next.{refused, Tells, ItemAt, FileNext, HeadTold};

use recording::marking::{HEADING, LOSS_FROM};
use recording::{Ending, Refusal};

// The law of a file, and the octets of its heading.
// No Result: `HeadTold` states the law and the octets of a refused call too.
#[derive(Drop)]
pub struct FileHead {
    pub end: Ending,
    pub law: u32,
    pub octets: usize,
}

// One item: its kind (0 a frame, 1 a loss), samples, octets and tool, a refusal's bit, and the next place. The kind is a number because
// callers in C are told it so.
// No Result: `Tells` states each field of a refused call too.
#[derive(Clone, Copy)]
pub struct Told {
    pub end: Ending,
    pub kind: usize,
    pub samples: usize,
    pub octets: usize,
    pub tool: u32,
    pub bit: usize,
    pub place: usize,
}

// What the heading says: "law, 10", or HEAD. "Any octets may follow; no LONG."
pub fn file_head(octets: &[u8]) -> FileHead
    ensures { HeadTold (headed octets.now) result }
{
    match recording_read::law_in(octets) {
        None => FileHead {
            end: Err(Refusal::Head),
            law: 0,
            octets: 0,
        },
        Some(law) => FileHead {
            end: Ok(()),
            law,
            octets: HEADING,
        },
    }
}

// Whether an item is a loss, by its number of 16 bits.
fn kind_of(cell: u16) -> usize
    ensures { result ≡ cond (leb loss_from cell) 1 0 }
{
    if LOSS_FROM <= cell { 1 } else { 0 }
}

// Its samples; of a loss its length.
fn samples_of(cell: u16) -> usize
    ensures { result ≡ cond (leb loss_from cell) (cell - loss_from) cell }
{
    if LOSS_FROM <= cell {
        usize::from(cell - LOSS_FROM)
    } else {
        usize::from(cell)
    }
}

// The tool of the frame at a place, by its first octets; 01 has none.
fn tool_at(octets: &[u8], set: u32, at: usize) -> u32
    requires { at ≤ length octets.now }
    ensures { result ≡ head_tool (head_of (drop at octets.now) set) }
{
    read_head::head(&octets[at..], set).tool
}

// "A refused one reports 0, 0, 0, tool, bit, at."
fn unread(why: Refusal, bit: usize, at: usize) -> Told
    ensures { (out : List ℕ) → Tells (refused why bit) at result out out }
{
    let end = Err(why);
    Told {
        end,
        kind: 0,
        samples: 0,
        octets: 0,
        tool: recording::tool_of(end),
        bit,
        place: at,
    }
}

// The item at a place: one item of the file's reading.
fn item_at(octets: &[u8], law: u32, set: u32, at: usize, out: &mut [u8]) -> Told
    requires { (verdict (walk_asks law set (length octets.now)) ≡ Ok tt) × (at < length octets.now) }
    ensures { ItemAt octets.now law set at out.old out.new result }
{
    let mut cells = [0u16; 1];
    let r = recording_read::play_on(octets, law, set, at, 1, out, &mut cells);
    match r.end {
        Err(why) => unread(why, r.bit, at),
        Ok(()) => {
            let cell = cells[0];
            Told {
                end: Ok(()),
                kind: kind_of(cell),
                samples: samples_of(cell),
                octets: r.place - at,
                tool: tool_at(octets, set, at),
                bit: 0,
                place: r.place,
            }
        }
    }
}

// One item at a place behind the heading: "LAW, SET, LONG, SHORT where `at` is not below the octets, then the frame's".
pub fn next(octets: &[u8], at: u64, law: u32, set: u32, out: &mut [u8]) -> Told
    ensures { FileNext octets.now at law set out.old out.new result }
{
    let place = at as usize;
    match rules::guard_stream(law, set, octets.len()) {
        Err(why) => unread(Refusal::Frame(why), 0, place),
        Ok(()) => {
            if octets.len() <= place {
                return unread(Refusal::Frame(rules::Refusal::Short), 0, place);
            }
            item_at(octets, law, set, place, out)
        }
    }
}
