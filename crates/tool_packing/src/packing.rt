// A sound packed into a stream of frames, one after another: at once (pack), or part by part, page by page (pack_on).
ghost use Rattle.std.specs.Prelude.{◌+◌, ◌-◌, ◌^◌, ◌≤◌, ◌<◌, ◌≡◌, true, length};
ghost use Rattle.rules.specs.Tools.{is_law, is_writer_set};
ghost use Rattle.rules.specs.Walk.{longest};
ghost use Rattle.tool_packing.specs.Packing.{PacksFrames, Pack};
ghost use Rattle.tool_packing.specs.Parts.{PutsFrame, StopsAtOnce, room_on, PackOn};

use crate::cutting::{last_end, next_length};
use rules::{Ending, LONGEST, Refusal, WriteAnswer};

// How packing ended, and what was packed: the frames, the sound in them and their octets.
#[derive(Clone, Copy)]
pub struct PackAnswer {
    pub end: Ending,
    pub frames: usize,
    pub samples: usize,
    pub octets: usize,
}

// One frame of the sound; its form goes to the output from `at` on.
fn put_frame(
    sound: &[u8],
    from: usize,
    to: usize,
    law: u32,
    set: u32,
    out: &mut [u8],
    at: usize,
) -> WriteAnswer
    requires { (from ≤ to) × (to ≤ length sound.now) × (at ≤ length out.old) }
    ensures { PutsFrame sound.now from (to - from) law set at out.old out.new result }
{
    writer::write_samples(&sound[from..to], law, set, &mut out[at..])
}

// Frame after frame, until no length fits or a form does not fit in what is left of the output.
fn frames(sound: &[u8], law: u32, set: u32, n: usize, out: &mut [u8]) -> PackAnswer
    requires { (is_law law ≡ true) × (is_writer_set set ≡ true) }
    ensures { PacksFrames sound.now law set n out.old out.new result }
{
    let mut from = 0;
    let mut at = 0;
    let mut count = 0;
    let end = 'frames: loop {
        let left = sound.len() - from;
        let len = next_length(n, left);
        if len == 0 {
            break 'frames last_end(left);
        }
        let to = from + len;
        let r = put_frame(sound, from, to, law, set, out, at);
        match r.end {
            Err(why) => break 'frames Err(why),
            Ok(()) => {
                from = to;
                at += r.octets;
                count += 1;
            }
        }
    };
    PackAnswer {
        end,
        frames: count,
        samples: from,
        octets: at,
    }
}

// LAW, SET and a frame length that is none of the five refuse before any frame.
fn stopped(why: Refusal) -> PackAnswer
    ensures { StopsAtOnce why result }
{
    PackAnswer {
        end: Err(why),
        frames: 0,
        samples: 0,
        octets: 0,
    }
}

// Packing a sound by a frame length. The frames' octets stand at the start of the output; the rest of it stays as lent.
pub fn pack(sound: &[u8], law: u32, set: u32, n: usize, out: &mut [u8]) -> PackAnswer
    ensures { Pack sound.now law set n out.old out.new result }
{
    match rules::guard_writer(law, set) {
        Err(why) => stopped(why),
        Ok(()) if !rules::is_length(n) => stopped(Refusal::Length),
        Ok(()) => frames(sound, law, set, n, out),
    }
}

// The octets that the next part may have: those of the page, but no more than the longest stream has left.
fn room_on(octets: usize, page: usize) -> usize
    requires { octets ≤ longest }
    ensures { result ≡ room_on octets page }
{
    page.min(LONGEST - octets)
}

// The next part of a sound, into a page whose octets then follow those packed so far; ROOM where the stream would be longer than the
// longest. Where the parts before it are whole frames and the page is large enough, this is packing all of the sound at once
// (proofs/Parts).
pub fn pack_on(
    done: PackAnswer,
    part: &[u8],
    law: u32,
    set: u32,
    n: usize,
    page: &mut [u8],
) -> PackAnswer
    requires { (done.octets ≤ longest) × (done.frames + length part.now < 2 ^ 64) × (done.samples + length part.now < 2 ^ 64) }
    ensures { PackOn done part.now law set n page.old page.new result }
{
    if done.end.is_err() {
        return done;
    }
    let room = room_on(done.octets, page.len());
    let p = pack(part, law, set, n, &mut page[..room]);
    PackAnswer {
        end: p.end,
        frames: done.frames + p.frames,
        samples: done.samples + p.samples,
        octets: done.octets + p.octets,
    }
}
