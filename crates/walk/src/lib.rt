// Walking a stream: "each next frame starts where the last one ended, in the middle of the same octets".
// Two loops over one invariant (proofs/Along): `walk_on` keeps no samples, `keep_on` puts them into a lent output. Both go from a place on,
// up to the stream's end, a refused frame, or so many frames, and can be taken up again where they ended (proofs/Walk of rules).
#![tactic(auto)]

ghost use Rattle.std.specs.Prelude.{◌≡◌, ◌≤◌, length, drop};
ghost use Rattle.rules.specs.Frame.{read_one};
ghost use Rattle.rules.specs.Calls.{Walk, Walks};
ghost use Rattle.rules.specs.Walk.{walk_from};
ghost use Rattle.reader.specs.Answers.{Fills, Measures};
ghost use Rattle.walk.specs.Counting.{Steps, Counts};

use reader::Report;
use rules::WalkAnswer;

// One frame, at a place of the stream, read for what it reports: its samples go to a frame buffer that is lent, and its room is a number.
pub fn pass(
    octets: &[u8],
    law: u32,
    set: u32,
    at: usize,
    room: usize,
    samples: &mut [u8; 320],
) -> Report
    requires { (at ≤ length octets.now) × (length samples.old ≡ 320) }
    ensures { Fills (read_one (drop at octets.now) law set room) result samples.new }
{
    reader::fill_frame(&octets[at..], law, set, room, samples)
}

// The same report, where no samples are wanted: what is in the frame buffer is not told.
fn measure(
    octets: &[u8],
    law: u32,
    set: u32,
    at: usize,
    room: usize,
    samples: &mut [u8; 320],
) -> Report
    requires { (at ≤ length octets.now) × (length samples.old ≡ 320) }
    ensures { Measures (read_one (drop at octets.now) law set room) result samples.new }
{
    reader::measure_frame(&octets[at..], law, set, room, samples)
}

// One frame, at a place of the stream; its samples go to the output from `to` on.
fn step(octets: &[u8], law: u32, set: u32, at: usize, out: &mut [u8], to: usize) -> Report
    requires { (at ≤ length octets.now) × (to ≤ length out.old) }
    ensures { Steps octets.now law set at to out.old out.new result }
{
    reader::read_into(&octets[at..], law, set, &mut out[to..])
}

// A walk from a place on that keeps no samples, of so many frames at most; its room is only a number that falls. The places are known only
// as the frames are read, so it goes by them, not by a range.
pub fn walk_on(
    octets: &[u8],
    law: u32,
    set: u32,
    at: usize,
    frames: usize,
    room: usize,
) -> WalkAnswer
    ensures { Counts (walk_from frames octets.now law set at room) result }
{
    let mut samples = [0u8; 320];
    let mut place = at;
    let mut left = room;
    let mut passed = 0;
    while passed < frames && place < octets.len() {
        let r = measure(octets, law, set, place, left, &mut samples);
        match r.end {
            Err(why) => {
                return WalkAnswer {
                    end: Err(why),
                    frames: passed,
                    octets: place - at,
                    samples: room - left,
                    place,
                    bit: r.bit,
                };
            }
            Ok(()) => {
                place += r.octets;
                left -= r.len;
                passed += 1;
            }
        }
    }
    WalkAnswer {
        end: Ok(()),
        frames: passed,
        octets: place - at,
        samples: room - left,
        place,
        bit: 0,
    }
}

// The same walk, its samples put into the output, whose length is the room: a frame loop with a labelled exit, as document 01 has it.
pub fn keep_on(
    octets: &[u8],
    law: u32,
    set: u32,
    at: usize,
    frames: usize,
    out: &mut [u8],
) -> WalkAnswer
    ensures { Walks (walk_from frames octets.now law set at (length out.old))
        result out.old out.new }
{
    let mut place = at;
    let mut used = 0;
    let mut to = 0;
    let mut count = 0;
    // How it stops, and the refusal's bit
    let (end, bit) = 'frames: loop {
        if frames <= count {
            break 'frames (Ok(()), 0);
        }
        if octets.len() <= place {
            break 'frames (Ok(()), 0);
        }
        let r = step(octets, law, set, place, out, to);
        match r.end {
            Err(why) => {
                break 'frames (Err(why), r.bit);
            }
            Ok(()) => {
                place += r.octets;
                used += r.octets;
                to += r.len;
                count += 1;
            }
        }
    };
    WalkAnswer {
        end,
        frames: count,
        octets: used,
        samples: to,
        place,
        bit,
    }
}

// Walking a stream. "LAW, SET and LONG refuse a walk before any frame, with place 0." Each frame has an octet, so as many frames are
// enough.
pub fn walk(octets: &[u8], law: u32, set: u32, out: &mut [u8]) -> WalkAnswer
    ensures { Walk octets.now law set out.old out.new result }
{
    match rules::guard_stream(law, set, octets.len()) {
        Err(why) => WalkAnswer {
            end: Err(why),
            frames: 0,
            octets: 0,
            samples: 0,
            place: 0,
            bit: 0,
        },
        Ok(()) => keep_on(octets, law, set, 0, octets.len(), out),
    }
}
