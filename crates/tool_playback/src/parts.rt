// A part of a recording (document 02, R-1) or of a stream: the items from a place on, as many as the output and the cells are sure to hold.
// The frames of a stream are items that are all sound.
ghost use Rattle.std.specs.Prelude.{◌≡◌};
ghost use Rattle.tool_playback.specs.Heard.{end_of, FramesHeard};
ghost use Rattle.tool_playback.specs.Parts.{sure_items, goes_on, loss_cells, Answers, NextPart, Goes};

use recording::marking::LOSS_FROM;
use recording::{Ending, Refusal};
use recording_read::Played;

// How octets are read: by a law and a tool set; as a recording, or as a stream, in which nothing is a loss.
#[derive(Clone, Copy)]
pub struct Reading {
    pub law: u32,
    pub set: u32,
    pub records: bool,
}

// How far: so many octets, and the items in them, whose frames have so many samples.
#[derive(Clone, Copy)]
pub struct Point {
    pub at: usize,
    pub items: usize,
    pub samples: usize,
}

// A part: how it ended, the place where it ended, the refusal's bit, its items, how many of them are losses, the samples of its frames, and
// whether there is more.
// `more` is a flag: it is no failure, and the definitions of `Parts` state facts under it.
#[derive(Clone, Copy)]
pub struct Part {
    pub end: Ending,
    pub at: usize,
    pub bit: usize,
    pub items: usize,
    pub lost: usize,
    pub samples: usize,
    pub more: bool,
}

// The losses among items as numbers of 16 bits: from 32,768 on one is a loss.
fn losses(cells: &[u16]) -> usize
    ensures { result ≡ loss_cells cells.now }
{
    let mut count = 0;
    for cell in cells {
        count += usize::from(LOSS_FROM <= *cell);
    }
    count
}

// There is more to come where the part ended clean before the end.
fn goes_on(end: Ending, place: usize, size: usize) -> bool
    ensures { result ≡ goes_on end place size }
{
    end.is_ok() && place < size
}

// A frame has at most 320 samples, so these items fit, whatever they are.
fn sure_items(room: usize, places: usize) -> usize
    ensures { result ≡ sure_items room places }
{
    (room / 320).min(places)
}

// What was read of so many octets, as a part.
fn part_of(p: Played, lost: usize, size: usize) -> Part
    ensures { Answers p lost size result }
{
    Part {
        end: p.end,
        at: p.place,
        bit: p.bit,
        items: p.items,
        lost,
        samples: p.samples,
        more: goes_on(p.end, p.place, size),
    }
}

// A walk's end as a recording's.
fn end_of(end: rules::Ending) -> Ending
    ensures { result ≡ end_of end }
{
    end.map_err(|why| Refusal::Frame(why))
}

// The next n frames of a stream, as items.
fn next_frames(body: &[u8], how: Reading, at: usize, n: usize, out: &mut [u8]) -> Played
    ensures { FramesHeard body.now how at n out.old out.new result }
{
    let w = walk::keep_on(body, how.law, how.set, at, n, out);
    Played {
        end: end_of(w.end),
        items: w.frames,
        place: w.place,
        samples: w.samples,
        bit: w.bit,
    }
}

// The items from a place on, as many as the output and the cells are sure to hold. Those of a recording are told in the cells.
pub fn next_part(body: &[u8], how: Reading, at: usize, out: &mut [u8], cells: &mut [u16]) -> Part
    ensures next_part { NextPart body.now how at out.old out.new cells.old cells.new result }
    ensures goes { Goes body.now at out.old cells.old result }
{
    let n = sure_items(out.len(), cells.len());
    if how.records {
        let p = recording_read::play_on(body, how.law, how.set, at, n, out, cells);
        let lost = losses(&cells[..p.items]);
        part_of(p, lost, body.len())
    } else {
        part_of(next_frames(body, how, at, n, out), 0, body.len())
    }
}
