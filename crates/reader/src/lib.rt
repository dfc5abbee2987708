// Reading one frame: "in a frame PREFIX, tool decided, TOOL, ROOM, then body checks as the bits come, ALIGN last".
#![tactic(auto)]

ghost use Rattle.std.specs.Prelude.{◌≡◌, ◌*◌, ◌%◌, ◌^◌, ◌≤◌, ◌<◌, ◌++◌, length, take, drop, cond, eqb};
ghost use Rattle.rules.specs.Bits.{bits_of};
ghost use Rattle.rules.specs.Located.{located};
ghost use Rattle.rules.specs.Fractional.{fractional};
ghost use Rattle.rules.specs.Frame.{read_one};
ghost use Rattle.rules.specs.Calls.{ReadFrame};
ghost use Rattle.read_bodies.specs.Bodied.{FillsBody};
ghost use Rattle.read_opening.specs.Opening.{body_of, HeadFits};
ghost use Rattle.reader.specs.Answers.{Fills, Measures, ReadsInto, after_head};
ghost use Rattle.reader.specs.Taken.{report_of, Few, Held, FillingIs, Gives, Takes, TakesInto, Sizes};

use read_bits::{Outcome, Stop};
use read_bodies::plain::{Plain, lay, plain_of};
use read_opening::{Head, opens};
use rules::{Ending, Frame, ReadAnswer, Refusal};

// What a reading reports; its samples stand where they were put. `bit` is the refusal's.
#[derive(Drop)]
pub struct Report {
    pub end: Ending,
    pub len: usize,
    pub octets: usize,
    pub bits: usize,
    pub tool: u32,
    pub bit: usize,
}

// Frames of few values about 0: fractional-bit (document 02, R-14), and value-location.
fn few_values(octets: &[u8], mask: u8, h: Head, samples: &mut [u8; 320]) -> Outcome
    requires { (HeadFits h) × (mask < 128) × (mask % 2 ≡ 1) × (length samples.old ≡ 320) }
    ensures { FillsBody (cond (eqb h.tool 11) (fractional mask h.mark h.len) (located mask h.len)
        (bits_of octets.now) h.at) (2 ^ 41) samples.old samples.new result }
{
    if h.tool == 11 {
        read_fractional::body(octets, h.at, h.len, h.mark, mask, samples)
    } else {
        read_located::located(octets, h.at, h.len, mask, samples)
    }
}

// The body of a tool that the set holds and that is none of 1 to 4, into the lent samples.
fn body_of(octets: &[u8], mask: u8, h: Head, samples: &mut [u8; 320]) -> Outcome
    requires { (HeadFits h) × (5 ≤ h.tool) × (mask < 128) × (mask % 2 ≡ 1) × (length samples.old ≡ 320) }
    ensures { FillsBody (body_of mask h (bits_of octets.now) h.at) (2 ^ 41)
        samples.old samples.new result }
{
    match h.tool {
        5 => read_bodies::binary(octets, h.at, h.len, mask, samples),
        6 => read_bodies::plus_minus(octets, h.at, h.len, h.mark as u8, mask, samples),
        _ => few_values(octets, mask, h, samples),
    }
}

// "ALIGN last": the bits that fill a frame's last octet, from the frame's end on.
fn filling(octets: &[u8], end: usize) -> Result<(), Stop>
    requires { (end ≤ 8 * length octets.now) × (end ≤ 2 ^ 41) }
    ensures { FillingIs octets.now end result }
{
    for at in end..8 * ((end + 7) / 8) {
        if read_bits::bit_at(octets, at) == 1 {
            return Err(Stop {
                why: Refusal::Align,
                bit: at,
            });
        }
    }
    Ok(())
}

// An accepted frame: its tool, the number of its samples, and the bits of prefix and body and nothing else.
#[derive(Clone, Copy)]
struct Taken {
    tool: u32,
    len: usize,
    bits: usize,
}

// "A pad reports 8 bits."
const PAD: Taken = Taken {
    tool: 0,
    len: 0,
    bits: 8,
};

// "A refused single call .. reports 0 samples, 0 octets used, 0 bits and tool 0, save that TOOL gives the tool", and the refusal's bit.
fn report_of(found: Result<Taken, Stop>) -> Report
    requires { Few found }
    ensures { result ≡ report_of found }
{
    match found {
        Ok(frame) => Report {
            end: Ok(()),
            len: frame.len,
            octets: (frame.bits + 7) / 8,
            bits: frame.bits,
            tool: frame.tool,
            bit: 0,
        },
        Err(stop) => Report {
            end: Err(stop.why),
            len: 0,
            octets: 0,
            bits: 0,
            tool: stop.why.tool(),
            bit: stop.bit,
        },
    }
}

// The tool is decided: TOOL, then ROOM.
fn admitted(set: u32, room: usize, h: Head) -> Result<(), Stop>
    ensures { Held set room h result }
{
    if !first_octet::holds(set, h.tool) {
        return Err(Stop {
            why: Refusal::Tool(h.tool),
            bit: 0,
        });
    }
    if room < h.len {
        return Err(Stop {
            why: Refusal::Room,
            bit: 0,
        });
    }
    Ok(())
}

// What is to be laid of a frame of tools 1 to 4, and its bits: TOOL, ROOM, SHORT. They end with an octet, so nothing is left to fill.
fn plain_frame(
    octets: &[u8],
    law: u32,
    set: u32,
    room: usize,
    h: Head,
) -> Result<(Plain, usize), Stop>
    requires { (HeadFits h) × (h.tool ≤ 4) }
    ensures { Gives (after_head law set room h octets.now) octets.now h room result }
{
    admitted(set, room, h)?;
    plain_of(octets, h.tool, h.len, law::mask_of(law))
}

// The same, laid at the start of some cells.
fn plain_into(
    octets: &[u8],
    law: u32,
    set: u32,
    room: usize,
    h: Head,
    cells: &mut [u8],
) -> Result<Taken, Stop>
    requires { (HeadFits h) × (h.tool ≤ 4) × ((h.len ≤ room → h.len ≤ length cells.old)) }
    ensures { TakesInto (after_head law set room h octets.now) result cells.old cells.new }
{
    let (body, bits) = plain_frame(octets, law, set, room, h)?;
    lay(body, octets, h.len, cells);
    Ok(Taken {
        tool: h.tool,
        len: h.len,
        bits,
    })
}

// The tool is decided, and none of 1 to 4: TOOL, ROOM, the body, ALIGN. An accepted frame's samples are the first of those lent.
fn with_tool(
    octets: &[u8],
    law: u32,
    set: u32,
    room: usize,
    h: Head,
    samples: &mut [u8; 320],
) -> Result<Taken, Stop>
    requires { (HeadFits h) × (5 ≤ h.tool) × (1 ≤ length octets.now) × (length samples.old ≡ 320) }
    ensures { Takes (after_head law set room h octets.now) result samples.new }
{
    admitted(set, room, h)?;
    // A body read whole has the frame's length.
    let (_, bits) = body_of(octets, law::mask_of(law), h, samples)?;
    filling(octets, bits)?;
    Ok(Taken {
        tool: h.tool,
        len: h.len,
        bits,
    })
}

// One frame, its samples at a frame buffer's start.
fn fill(
    octets: &[u8],
    law: u32,
    set: u32,
    room: usize,
    samples: &mut [u8; 320],
) -> Result<Taken, Stop>
    requires { length samples.old ≡ 320 }
    ensures { Takes (read_one octets.now law set room) result samples.new }
{
    let opening = opens(octets, law, set)?;
    match opening {
        None => Ok(PAD),
        Some(h) => {
            if h.tool <= 4 {
                plain_into(octets, law, set, room, h, samples)
            } else {
                with_tool(octets, law, set, room, h, samples)
            }
        }
    }
}

// One frame with no samples wanted: those of tools 1 to 4 are not laid.
fn measure(
    octets: &[u8],
    law: u32,
    set: u32,
    room: usize,
    samples: &mut [u8; 320],
) -> Result<Taken, Stop>
    requires { length samples.old ≡ 320 }
    ensures { Sizes (read_one octets.now law set room) result samples.new }
{
    let opening = opens(octets, law, set)?;
    match opening {
        None => Ok(PAD),
        Some(h) => {
            if h.tool <= 4 {
                let (_, bits) = plain_frame(octets, law, set, room, h)?;
                Ok(Taken {
                    tool: h.tool,
                    len: h.len,
                    bits,
                })
            } else {
                with_tool(octets, law, set, room, h, samples)
            }
        }
    }
}

// One frame, its samples at the output's start.
fn put(octets: &[u8], law: u32, set: u32, out: &mut [u8]) -> Result<Taken, Stop>
    ensures { TakesInto (read_one octets.now law set (length out.old)) result out.old out.new }
{
    let opening = opens(octets, law, set)?;
    match opening {
        None => Ok(PAD),
        Some(h) => {
            if h.tool <= 4 {
                return plain_into(octets, law, set, out.len(), h, out);
            }
            let mut samples = [0; 320];
            let frame = with_tool(octets, law, set, out.len(), h, &mut samples)?;
            put_out(&samples, frame.len, out);
            Ok(frame)
        }
    }
}

// One frame read into a frame buffer that is lent, its room a number: what is reported, and an accepted frame's samples at the buffer's
// start. For a walk that keeps no samples: nothing is put out, and one buffer serves every frame.
pub fn fill_frame(octets: &[u8], law: u32, set: u32, room: usize, samples: &mut [u8; 320]) -> Report
    requires { length samples.old ≡ 320 }
    ensures { Fills (read_one octets.now law set room) result samples.new }
{
    report_of(fill(octets, law, set, room, samples))
}

// The same report with no samples wanted: those of tools 1 to 4 are not laid. The frame buffer is for the others, and what is in it is not
// told.
pub fn measure_frame(
    octets: &[u8],
    law: u32,
    set: u32,
    room: usize,
    samples: &mut [u8; 320],
) -> Report
    requires { length samples.old ≡ 320 }
    ensures { Measures (read_one octets.now law set room) result samples.new }
{
    report_of(measure(octets, law, set, room, samples))
}

// The first n of some samples to the start of others; the rest of them stays as lent.
pub fn put_out(samples: &[u8], n: usize, out: &mut [u8])
    requires { (n ≤ length samples.now) × (n ≤ length out.old) }
    ensures { out.new ≡ take n samples.now ++ drop n out.old }
{
    rules::copy_over(&mut out[..n], &samples[..n]);
}

// One frame read into the output: what is reported, and an accepted frame's samples at the output's start.
pub fn read_into(octets: &[u8], law: u32, set: u32, out: &mut [u8]) -> Report
    ensures { ReadsInto (read_one octets.now law set (length out.old))
        result out.old out.new }
{
    report_of(put(octets, law, set, out))
}

// Reading one frame: the same samples as a frame that travels with its length, 00 past them.
pub fn read_frame(octets: &[u8], law: u32, set: u32, out: &mut [u8]) -> ReadAnswer
    ensures { ReadFrame octets.now law set out.old out.new result }
{
    let r = read_into(octets, law, set, out);
    let mut samples = [0; 320];
    put_out(out, r.len, &mut samples);
    ReadAnswer {
        end: r.end,
        frame: Frame {
            samples,
            len: r.len,
        },
        octets: r.octets,
        bits: r.bits,
        tool: r.tool,
        bit: r.bit,
    }
}
