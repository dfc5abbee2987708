// The bench tool `pack`: raw G.711 octets or a linear master in, a stream of frames or a recording out. What matters is in crate
// `tool_packing`: here the sound is read in parts of whole frames, what each makes is kept in a file without a name, and that is written
// when all is well. So a stream of 1,048,576 octets takes no more memory than a short one.
#![tactic(auto)]

ghost use Rattle.std.specs.Prelude.{◌+◌, ◌≤◌, ◌<◌, ◌≡◌, true, length, IfOk};
ghost use Rattle.rules.specs.Tools.{is_law};
ghost use Rattle.tool_packing.specs.SoundParts.{part_size};
ghost use Rattle.tool_playback.specs.Runs.{Reachable};
ghost use Rattle.pack.specs.Runs.{page_size, FilledIf, NextOctets, WholeSound, Stands, Turns, StartsWell, steps_left};

use recording::marking::HEADING;
use std::fs::File;
use std::io;
use tool_console::{InFile, Names, OutFile, no_error};
use tool_packing::packing::PackAnswer;
use tool_playback::parts::Reading;
use tool_playback::playing::Body;
use tool_playback::telling::Tells;
use tool_sound::sounds::Way;
use tool_words::options::{Form, Settings, Tool};

// The octets of a page, which takes what a part of 61,440 samples makes: at most 41 octets for 40 samples.
const PAGE: usize = 62976;

// What can fail on the way: the sound can't be read, what it makes can't be kept or read again, or it can't be written; and why.
#[derive(Clone, Copy)]
enum Amiss {
    Unread(io::Error),
    Unkept(io::Error),
    Unwritten(io::Error),
}

// What is packed, and how: by which law, tools and frame length; the sound's form; whether it is filled up, and a recording is written.
#[derive(Clone, Copy)]
struct Job {
    law: u32,
    set: u32,
    length: u32,
    form: Form,
    fill: bool,
    records: bool,
}

// What was packed so far, how many octets were added to the last part, whether more sound may come, and how many octets the file should
// still have.
// `more` is a flag: it is no failure, and the definitions `Stands` and `OneSound` state facts under it.
#[derive(Clone, Copy)]
struct Run {
    packed: PackAnswer,
    filled: usize,
    more: bool,
    left: usize,
}

// Where it is asked, what the last part lacks is filled up.
fn filled_up(fill: bool, part: &mut [u8], count: usize, law: u32) -> usize
    requires { (length part.old ≡ part_size) × (count ≤ part_size) }
    ensures filled { FilledIf fill count law part.old part.new result }
    ensures most { count + result ≤ part_size }
{
    if fill {
        return tool_packing::cutting::fill_up(part, count, law);
    }
    0
}

// The octets of a part, put behind those that are kept. The job and both answers stand here for the contract alone.
fn keep_part(
    keep: &File,
    job: Job,
    before: PackAnswer,
    after: PackAnswer,
    octets: &[u8],
) -> io::Result<()>
    requires { NextOctets job before after octets.now }
{
    tool_console::write_kept(keep, octets)
}

// One part read, packed and kept.
fn next_part(
    fd: &InFile,
    keep: &File,
    run: Run,
    job: Job,
    part: &mut [u8],
    page: &mut [u8],
) -> Result<Run, Amiss>
    requires { (Stands job run) × (run.more ≡ true) × (length part.old ≡ part_size) × (length page.old ≡ page_size) }
    ensures { IfOk result (λ r. Turns job run r) }
{
    let heard = match tool_sound::sounds::read_part(fd, job.form, job.law, run.left, part) {
        Ok(heard) => heard,
        Err(why) => return Err(Amiss::Unread(why)),
    };
    let count = heard.count;
    let filled = filled_up(job.fill, part, count, job.law);
    let end = count + filled;
    let packed = run.packed;
    let p = tool_packing::packing::pack_on(
        packed,
        &part[..end],
        job.law,
        job.set,
        job.length as usize,
        page,
    );
    let n = p.octets - packed.octets;
    if let Err(why) = keep_part(keep, job, packed, p, &page[..n]) {
        return Err(Amiss::Unkept(why));
    }
    Ok(Run {
        packed: p,
        filled,
        more: tool_packing::cutting::may_go_on(p.end, count),
        left: heard.left,
    })
}

// Part after part, until the sound ends, is refused or something fails.
// A `while`: whether a part is the last is known when it is packed.
fn all_parts(
    fd: &InFile,
    keep: &File,
    start: Run,
    job: Job,
    part: &mut [u8],
    page: &mut [u8],
) -> Result<Run, Amiss>
    requires { (Stands job start) × (length part.old ≡ part_size) × (length page.old ≡ page_size) }
    ensures { IfOk result (λ r. Stands job r) }
{
    let mut run = start;
    while run.more {
        match next_part(fd, keep, run, job, part, page) {
            Ok(next) => run = next,
            Err(amiss) => return Err(amiss),
        }
    }
    Ok(run)
}

// Why the sound is refused.
fn explain_sound(rt: HostRuntime, number: u32) {
    match number {
        10 => tool_console::tell(
            rt,
            Tool::Pack,
            "no length fits the octets at the end; -f fills them up",
        ),
        13 => tool_console::tell(
            rt,
            Tool::Pack,
            format_args!(
                "the stream would be longer than {} octets; the sound up to the place below fits",
                rules::LONGEST
            ),
        ),
        _ => {}
    }
}

// A recording begins with the heading of its law.
fn heading_written(records: bool, law: u32, fd: &OutFile) -> io::Result<()> {
    if records {
        return tool_console::write_out(fd, &recording::marking::heading_of(law));
    }
    Ok(())
}

// What is kept, put into a file page by page.
// A `while`: how many octets a read gives is known when it is done.
fn copied(keep: &File, b: Body, fd: &OutFile, page: &mut [u8]) -> Result<(), Amiss>
    requires { Reachable b }
{
    let mut at = 0;
    while at < b.size {
        let n = match tool_playback::playing::window_at(keep, b, at, page) {
            Ok(0) => return Err(Amiss::Unkept(no_error())),
            Ok(n) => n,
            Err(why) => return Err(Amiss::Unkept(why)),
        };
        tool_console::write_out(fd, &page[..n]).map_err(Amiss::Unwritten)?;
        at += n;
    }
    Ok(())
}

// A frame that is all 0++ or all 0-- is a loss to every reader of recordings: how many there are is said, by reading what is kept so.
fn say_erased(rt: HostRuntime, keep: &File, b: Body, law: u32)
    requires { Reachable b × (is_law law ≡ true) }
{
    let how = Reading {
        law,
        set: rules::ALL_TOOLS,
        records: true,
    };
    let t = tool_playback::playing::play_file(rt, keep, b, how, Way::Counted, Tells::Nothing);
    if t.lost != 0 {
        tool_console::tell(
            rt,
            Tool::Pack,
            format_args!(
                "frames that are all 0++ or all 0--, so that readers of recordings take them for lost: {}",
                t.lost
            ),
        );
    }
}

// What was done, of a stream or of a recording, whose octets count the heading.
fn say_done(rt: HostRuntime, run: Run, job: Job, keep: &File, b: Body)
    requires { Reachable b × (is_law job.law ≡ true) }
{
    let p = run.packed;
    if job.records {
        say_erased(rt, keep, b, job.law);
        tool_console::summary(rt, p.frames, p.samples, b.size + HEADING);
    } else {
        tool_console::summary(rt, p.frames, p.samples, b.size);
    }
    if job.fill {
        let _ = eprintln!(rt; "filled={}", run.filled);
    }
    tool_console::stop(rt, Tool::Pack, 0, p.samples, 0, 0);
}

// What failed, and the last line.
fn failed(rt: HostRuntime, wrong: Amiss, names: Names<'_>) {
    match wrong {
        Amiss::Unread(why) => tool_console::unread(rt, Tool::Pack, names.from, why),
        Amiss::Unkept(why) => tool_console::failed(rt, Tool::Pack, b"/tmp", b"/tmp", why),
        Amiss::Unwritten(why) => tool_console::unwritten(rt, Tool::Pack, names.to, why),
    }
}

// The stream of a whole sound to a file that was opened, in a recording after its heading.
fn stream_in(
    run: Run,
    job: Job,
    keep: &File,
    b: Body,
    fd: OutFile,
    page: &mut [u8],
) -> Result<(), Amiss>
    requires { (WholeSound job run) × (b.size ≡ run.packed.octets) × Reachable b }
{
    heading_written(job.records, job.law, &fd).map_err(Amiss::Unwritten)?;
    copied(keep, b, &fd, page)?;
    tool_console::close(fd).map_err(Amiss::Unwritten)
}

// The stream of a whole sound is written, in a recording after its heading.
fn write_stream(
    rt: HostRuntime,
    run: Run,
    job: Job,
    name: &[u8],
    keep: &File,
    b: Body,
    page: &mut [u8],
) -> Result<(), Amiss>
    requires { (WholeSound job run) × (b.size ≡ run.packed.octets) × Reachable b }
{
    match tool_console::open_out(rt, name) {
        Ok(fd) => stream_in(run, job, keep, b, fd, page),
        Err(why) => Err(Amiss::Unwritten(why)),
    }
}

// Nothing is written, and no file made, unless all of the sound was read and packed. A stream that is too long ends the reading too.
fn finish(rt: HostRuntime, run: Run, job: Job, names: Names<'_>, keep: &File, page: &mut [u8])
    requires { Stands job run }
{
    let p = run.packed;
    let number = tool_packing::cutting::number_for(p.end);
    if run.left != 0 && number != 13 {
        tool_console::tell(rt, Tool::Pack, "the master ends inside its sound");
        tool_console::stop(rt, Tool::Pack, 74, 0, 0, 0);
        return;
    }
    if number != 0 {
        explain_sound(rt, number);
        tool_console::refused(rt, Tool::Pack, number, p.samples, 0, 0);
        return;
    }
    let b = Body {
        skip: 0,
        size: p.octets,
    };
    match write_stream(rt, run, job, names.to, keep, b, page) {
        Ok(()) => say_done(rt, run, job, keep, b),
        Err(wrong) => failed(rt, wrong, names),
    }
}

// The sound is read and packed part after part, and then written.
fn pack_sound(
    rt: HostRuntime,
    fd: &InFile,
    packed: PackAnswer,
    job: Job,
    names: Names<'_>,
    part: &mut [u8],
    page: &mut [u8],
)
    requires { (StartsWell job packed) × (length part.old ≡ part_size) × (length page.old ≡ page_size) }
{
    let Some(left) = tool_sound::sounds::open_sound(rt, fd, job.form, part) else {
        tool_console::stop(rt, Tool::Pack, 74, 0, 0, 0);
        return;
    };
    let start = Run {
        packed,
        filled: 0,
        more: true,
        left,
    };
    match tool_console::nameless(rt) {
        Ok(keep) => match all_parts(fd, &keep, start, job, part, page) {
            Ok(run) => finish(rt, run, job, names, &keep, page),
            Err(wrong) => failed(rt, wrong, names),
        },
        Err(why) => failed(rt, Amiss::Unkept(why), names),
    }
}

// The settings are judged by packing no sound, before any file is opened.
fn pack_file(rt: HostRuntime, job: Job, names: Names<'_>, part: &mut [u8], page: &mut [u8])
    requires { (length part.old ≡ part_size) × (length page.old ≡ page_size) }
{
    let packed = tool_packing::packing::pack(b"", job.law, job.set, job.length as usize, page);
    let number = rules::number_of(packed.end);
    if number != 0 {
        tool_console::refuse_settings(rt, Tool::Pack, number);
        return;
    }
    match tool_console::open_in(rt, names.from) {
        Ok(fd) => pack_sound(rt, &fd, packed, job, names, part, page),
        Err(why) => failed(rt, Amiss::Unread(why), names),
    }
}

// The settings are whole: the name of what is written, and then the sound.
fn pack_named(rt: HostRuntime, s: Settings, law: u32, from: &[u8], space: &mut [u8]) {
    if s.flags.records && s.outfile.is_none() && !from.is_empty() {
        tool_console::usage(rt, Tool::Pack, b"with -r OUTFILE must be said");
        return;
    }
    let Some(to) = tool_console::target_name(rt, s, law, from, space) else {
        tool_console::usage(
            rt,
            Tool::Pack,
            b"the name of INFILE is too long for another ending",
        );
        return;
    };
    let job = Job {
        law,
        set: s.set,
        length: s.length,
        form: s.form,
        fill: s.flags.fill,
        records: s.flags.records,
    };
    let mut part = [0u8; 61440];
    let mut page = [0u8; PAGE];
    pack_file(rt, job, Names { from, to }, &mut part, &mut page);
}

// A law that no option tells is told by the ending of what is read.
fn main(rt: HostRuntime) {
    let Some(s) = tool_console::settings(rt, Tool::Pack) else {
        return;
    };
    let mut space = [0u8; 4095];
    let mut names = [0u8; 4095];
    let from = tool_console::file_name(rt, s.infile, &mut space);
    if let Some(law) = tool_console::law_of(rt, s, from) {
        pack_named(rt, s, law, from, &mut names);
    }
}
