// The bench tool `why`: raw G.711 octets in; for each frame that `pack` cuts them into, why the writer takes its tool. What matters is in
// crates `reasoning` and `reasons`: here the sound is read in parts of whole frames, and each frame's lines are written as it comes.
#![tactic(auto)]

ghost use Rattle.std.specs.Prelude.{◌+◌, ◌≤◌, true, ◌≡◌, length, IfOk};
ghost use Rattle.text_lines.specs.Puts.{Puts};
ghost use Rattle.tool_packing.specs.SoundParts.{part_size};
ghost use Rattle.why.specs.Cut.{FrameIn, ShowsFrame, PartsIn, Further};
ghost use Rattle.why.specs.Shows.{head_line, frame_text, most_sound};

use reasons::Reasons;
use rules::{Ending, Numbered, Refusal};
use std::io;
use std::io::Print;
use tool_console::{InFile, no_error};
use tool_words::options::Tool;

// What can fail on the way: the sound can't be read, or the lines can't be written; and why.
#[derive(Clone, Copy)]
enum Amiss {
    Unread(io::Error),
    Unwritten(io::Error),
}

// What is told, and how: by which law, tools and frame length; and of one frame only, or of all.
#[derive(Clone, Copy)]
struct Job {
    law: u32,
    set: u32,
    length: u32,
    frame: Option<u32>,
}

// How the sound ended so far, its frames and the samples in them, and whether more sound may come.
// `more` is a flag: it is no failure, and the definitions state facts under it, such as `PartsIn`.
#[derive(Clone, Copy)]
struct Run {
    end: Ending,
    frames: usize,
    samples: usize,
    more: bool,
}

// A frame's heading: `frame=K at=P`.
fn put_head(k: usize, place: usize, out: &mut [u8]) -> usize
    requires { length out.old ≡ 640 }
    ensures puts { Puts out.old 0 (head_line k place) out.new result }
    ensures most { result ≤ 51 }
{
    let a = text_lines::put_field(b"frame=", k, out, 0);
    let b = text_lines::put_field(b" at=", place, out, a);
    text_lines::put_word(b"\n", out, b)
}

// The heading, and the lines of its reasons.
fn put_frame(k: usize, place: usize, r: Reasons, out: &mut [u8]) -> usize
    requires { length out.old ≡ 640 }
    ensures puts { Puts out.old 0 (frame_text k place r) out.new result }
    ensures most { result ≤ 640 }
{
    let a = put_head(k, place, out);
    reasons::put_reasons(r, out, a)
}

// Only the heading of a frame that `pack` cuts, and the lines of its reasons, are written.
fn write_frame(
    rt: HostRuntime,
    frame: &[u8],
    k: usize,
    place: usize,
    job: Job,
    text: &[u8],
) -> io::Result<()>
    requires { ShowsFrame job.length frame.now k place job.law job.set text.now }
{
    Print::write_all(&rt.stdout(), text)
}

// The reasons of frame k, which stands at `place` of the sound.
fn show_frame(rt: HostRuntime, frame: &[u8], k: usize, place: usize, job: Job) -> io::Result<()>
    requires { FrameIn job.length k place frame.now }
{
    match reasoning::why_samples(frame, job.law, job.set) {
        Err(_) => Err(no_error()),
        Ok(r) => {
            let mut text = [0u8; 640];
            let n = put_frame(k, place, r, &mut text);
            write_frame(rt, frame, k, place, job, &text[..n])
        }
    }
}

// "`-k#` for one frame only": another one is passed over.
fn show_wanted(rt: HostRuntime, frame: &[u8], k: usize, place: usize, job: Job) -> io::Result<()>
    requires { FrameIn job.length k place frame.now }
{
    match job.frame {
        Some(only) if k != only as usize => Ok(()),
        _ => show_frame(rt, frame, k, place, job),
    }
}

// Frame after frame of a part, until no length fits or a write fails.
// No `for`: how long a frame is, is known when it is cut.
fn part_frames(rt: HostRuntime, part: &[u8], run: Run, job: Job) -> Result<Run, Amiss>
    requires part_len_bound { (length part.now ≤ part_size) × (run.frames ≤ most_sound) × (run.samples ≤ most_sound) }
    requires parts_in { PartsIn job.length run.frames run.samples }
    ensures { IfOk result (λ r. Further job.length (length part.now) run r) }
{
    let mut from = 0;
    let mut k = run.frames;
    loop {
        let left = part.len() - from;
        let len = tool_packing::cutting::next_length(job.length as usize, left);
        let place = run.samples + from;
        if len == 0 {
            let end = tool_packing::cutting::last_end(left);
            return Ok(Run {
                end,
                frames: k,
                samples: place,
                more: tool_packing::cutting::may_go_on(end, part.len()),
            });
        }
        let to = from + len;
        if let Err(why) = show_wanted(rt, &part[from..to], k, place, job) {
            return Err(Amiss::Unwritten(why));
        }
        from = to;
        k += 1;
    }
}

// One part read and shown.
fn next_part(
    rt: HostRuntime,
    fd: &InFile,
    run: Run,
    job: Job,
    part: &mut [u8],
) -> Result<Run, Amiss>
    requires part_len { (length part.old ≡ part_size) × (run.frames ≤ most_sound) × (run.samples ≤ most_sound) }
    requires parts_in { PartsIn job.length run.frames run.samples }
    ensures { IfOk result (λ r. Further job.length part_size run r) }
{
    match tool_console::read_part(fd, part) {
        Ok(count) => part_frames(rt, &part[..count], run, job),
        Err(why) => Err(Amiss::Unread(why)),
    }
}

// No file has as many parts as these.
const PARTS: u64 = 160000000000000;

// Part after part, until the sound ends, is refused, or can't be read or shown.
fn all_parts(rt: HostRuntime, fd: &InFile, job: Job, part: &mut [u8]) -> Result<Run, Amiss>
    requires { length part.old ≡ part_size }
{
    let mut run = Run {
        end: Ok(()),
        frames: 0,
        samples: 0,
        more: true,
    };
    'parts: for _ in 0..PARTS {
        if !run.more {
            break;
        }
        match next_part(rt, fd, run, job, part) {
            Ok(next) => run = next,
            Err(amiss) => return Err(amiss),
        }
    }
    Ok(run)
}

// LAW, SET, and LENGTH of the frame length.
fn judge(job: Job) -> Ending {
    let _ = reasoning::why_samples(b"", job.law, job.set)?;
    if rules::is_length(job.length as usize) {
        Ok(())
    } else {
        Err(Refusal::Length)
    }
}

// What was done, or why it was not, of a sound that was read and shown. A frame may be asked for that the sound does not have.
fn finish(rt: HostRuntime, run: Run, job: Job) {
    let number = rules::number_of(run.end);
    if number != 0 {
        tool_console::tell(rt, Tool::Why, "no length fits the octets at the end");
        tool_console::refused(rt, Tool::Why, number, run.samples, 0, 0);
        return;
    }
    let number = match job.frame {
        Some(only) if run.frames <= only as usize => {
            let frames = run.frames;
            tool_console::tell(
                rt,
                Tool::Why,
                format_args!("the sound has no such frame; its frames are {frames}"),
            );
            64
        }
        _ => 0,
    };
    tool_console::stop(rt, Tool::Why, number, run.samples, 0, 0);
}

// The parts of a sound that was opened.
fn why_sound(rt: HostRuntime, fd: &InFile, job: Job, name: &[u8]) {
    let mut part = [0u8; 61440];
    match all_parts(rt, fd, job, &mut part) {
        Ok(run) => finish(rt, run, job),
        Err(Amiss::Unread(why)) => tool_console::unread(rt, Tool::Why, name, why),
        Err(Amiss::Unwritten(why)) => tool_console::unwritten(rt, Tool::Why, b"", why),
    }
}

// The settings are judged before any file is opened.
fn why_file(rt: HostRuntime, job: Job, name: &[u8]) {
    if let Err(why) = judge(job) {
        tool_console::refuse_settings(rt, Tool::Why, why.number());
        return;
    }
    match tool_console::open_in(rt, name) {
        Ok(fd) => why_sound(rt, &fd, job, name),
        Err(why) => tool_console::unread(rt, Tool::Why, name, why),
    }
}

// A law that no option tells is told by the ending of what is read.
fn main(rt: HostRuntime) {
    let Some(s) = tool_console::settings(rt, Tool::Why) else {
        return;
    };
    let mut space = [0u8; 4095];
    let name = tool_console::file_name(rt, s.infile, &mut space);
    if let Some(law) = tool_console::law_of(rt, s, name) {
        let job = Job {
            law,
            set: s.set,
            length: s.length,
            frame: s.frame,
        };
        why_file(rt, job, name);
    }
}
