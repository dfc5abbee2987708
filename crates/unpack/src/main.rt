// The bench tool `unpack`: a stream, or a recording, back to sound, or, with a master, the sound compared with it. What a file's items and
// their sound are stands in crate `tool_playback`, what the arguments mean in `tool_words`, what is said in `tool_console`.
#![tactic(auto)]

ghost use Rattle.std.specs.Prelude.{◌≡◌, ◌^◌, ◌≤◌, ◌<◌, Ok, length};
ghost use Rattle.rules.specs.Walk.{longest};
ghost use Rattle.recording.specs.Remembered.{heading_length};
ghost use Rattle.tool_playback.specs.Runs.{Reachable, Lawful, Within};

use recording::marking::HEADING;
use rules::{Ending, Numbered};
use std::fs::File;
use std::io;
use tool_console::{InFile, Names, OutFile, Source, no_error};
use tool_playback::kinds::Kind;
use tool_playback::parts::Reading;
use tool_playback::playing::{Body, Total, play_file};
use tool_playback::telling::Tells;
use tool_sound::sounds::{Trouble, Way};
use tool_words::options::{Flags, Form, Settings, Tool};

// A call that can't be met, why, and the last line.
fn usage(rt: HostRuntime, why: &[u8]) {
    tool_console::usage(rt, Tool::Unpack, why);
}

fn unread(rt: HostRuntime, name: &[u8], why: io::Error) {
    tool_console::unread(rt, Tool::Unpack, name, why);
}

fn unwritten(rt: HostRuntime, name: &[u8], why: io::Error) {
    tool_console::unwritten(rt, Tool::Unpack, name, why);
}

// Losses end a run with a status of their own, unless it is to go on.
fn stop_well(rt: HostRuntime, t: Total, on: bool) {
    if t.lost == 0 || on {
        tool_console::stop(rt, Tool::Unpack, 0, t.at, 0, 0);
        return;
    }
    tool_console::tell(
        rt,
        Tool::Unpack,
        "the recording has losses, so this is not all of its sound; -g goes on all the same",
    );
    tool_console::stop(rt, Tool::Unpack, 66, t.at, 0, 0);
}

// What was done: the frames are the items that are no losses, and a recording's octets count the heading.
fn say_done(rt: HostRuntime, t: Total, records: bool)
    requires { Within longest t }
{
    if records {
        tool_console::summary_of_recording(rt, t.items - t.lost, t.samples, t.at + HEADING, t.lost);
    } else {
        tool_console::summary(rt, t.items - t.lost, t.samples, t.at);
    }
}

// The last lines of a run in which nothing is wrong with the files: what was done, and the refusal if there is one.
// No flag beside the number: 0 is no refusal, and it is what the last line prints.
fn finish(rt: HostRuntime, t: Total, records: bool, on: bool)
    requires { Within longest t }
{
    say_done(rt, t, records);
    let number = rules::number_of(t.end);
    if number == 0 {
        stop_well(rt, t, on);
    } else {
        let tool = recording::tool_of(t.end);
        tool_console::refused(rt, Tool::Unpack, number, t.at, tool, t.bit);
    }
}

// Opens the file, and finds out how many octets it has.
fn source_in(rt: HostRuntime, name: &[u8], part: &mut [u8]) -> io::Result<Source>
    requires { (1 ≤ length part.old) × (length part.old < 2 ^ 32) }
{
    let fd = tool_console::open_in(rt, name)?;
    tool_console::source_of(rt, &fd, rules::LONGEST + HEADING, part)
}

// A WAV file tells before its sound how long it is: the frames are read once for that.
fn wave_heading(rt: HostRuntime, file: &File, b: Body, how: Reading, fd: &OutFile) -> io::Result<()>
    requires { Reachable b × Lawful how }
{
    let t = play_file(rt, file, b, how, Way::Counted, Tells::Nothing);
    if t.wrong.is_err() {
        return Ok(());
    }
    tool_sound::sounds::write_heading(fd, t.samples)
}

// What stands before the sound in its form.
fn heading_written(
    rt: HostRuntime,
    file: &File,
    b: Body,
    how: Reading,
    form: Form,
    fd: &OutFile,
) -> io::Result<()>
    requires { Reachable b × Lawful how }
{
    match form {
        Form::Raw | Form::Linear => Ok(()),
        Form::Wave => wave_heading(rt, file, b, how, fd),
    }
}

// What is told of a recording's items; a stream has no losses.
fn tells_of(f: Flags) -> Tells {
    if f.lists { Tells::All } else { Tells::Losses }
}

// What came of writing the sound, and the last lines.
fn written(rt: HostRuntime, t: Total, how: Reading, on: bool, names: Names<'_>, fd: OutFile)
    requires { Within longest t }
{
    match t.wrong {
        Ok(()) => match tool_console::close(fd) {
            Ok(()) => finish(rt, t, how.records, on),
            Err(why) => unwritten(rt, names.to, why),
        },
        Err(Trouble::Unread(why)) => unread(rt, names.from, why),
        Err(Trouble::Failed(why)) => unwritten(rt, names.to, why),
        Err(Trouble::Master(_)) => unwritten(rt, names.to, no_error()),
    }
}

// The sound of a file to another that was opened.
fn write_in(
    rt: HostRuntime,
    file: &File,
    b: Body,
    how: Reading,
    s: Settings,
    names: Names<'_>,
    fd: OutFile,
)
    requires { Reachable b × Lawful how }
{
    if let Err(why) = heading_written(rt, file, b, how, s.form, &fd) {
        unwritten(rt, names.to, why);
        return;
    }
    let t = play_file(
        rt,
        file,
        b,
        how,
        Way::Written(&fd, s.form),
        tells_of(s.flags),
    );
    written(rt, t, how, s.flags.on, names, fd);
}

// Writes the sound of a file to another.
fn write_to(rt: HostRuntime, file: &File, b: Body, how: Reading, s: Settings, names: Names<'_>)
    requires { Reachable b × Lawful how }
{
    match tool_console::open_out(rt, names.to) {
        Ok(fd) => write_in(rt, file, b, how, s, names, fd),
        Err(why) => unwritten(rt, names.to, why),
    }
}

// What a comparison came to. A frame that is refused comes before what a master has left over once all of the sound agrees.
fn compared(rt: HostRuntime, t: Total, how: Reading, on: bool, names: Names<'_>, fd: &InFile)
    requires { Within longest t }
{
    let mut wrong = t.wrong;
    if wrong.is_ok() && t.end.is_ok() {
        wrong = tool_sound::sounds::left_over(fd);
    }
    match wrong {
        Ok(()) => finish(rt, t, how.records, on),
        Err(Trouble::Unread(why)) => unread(rt, names.from, why),
        Err(Trouble::Failed(why)) => unread(rt, names.to, why),
        Err(Trouble::Master(how)) => tool_sound::sounds::differs(rt, how, t.samples),
    }
}

// Compares the sound of a file with a master.
fn compare_with(rt: HostRuntime, file: &File, b: Body, how: Reading, s: Settings, names: Names<'_>)
    requires { Reachable b × Lawful how }
{
    match tool_console::open_in(rt, names.to) {
        Ok(fd) => {
            let t = play_file(rt, file, b, how, Way::Compared(&fd), tells_of(s.flags));
            compared(rt, t, how, s.flags.on, names, &fd);
        }
        Err(why) => unread(rt, names.to, why),
    }
}

// LAW, SET and LONG are told before any frame is read. The same ending, once a refusal is said.
fn judged(rt: HostRuntime, end: Ending) -> Ending
    ensures { result ≡ end }
{
    if let Err(why) = end {
        tool_console::refused(rt, Tool::Unpack, why.number(), 0, 0, 0);
    }
    end
}

// The octets of a file's frames to the other file: OUTFILE or the master. `name` is INFILE.
fn to_other(rt: HostRuntime, file: &File, b: Body, how: Reading, s: Settings, name: &[u8])
    requires { Reachable b × Lawful how }
{
    let mut space = [0u8; 4095];
    if s.master.is_some() {
        let to = tool_console::file_name(rt, s.master, &mut space);
        compare_with(rt, file, b, how, s, Names { from: name, to });
        return;
    }
    match tool_console::target_name(rt, s, how.law, name, &mut space) {
        Some(to) => write_to(rt, file, b, how, s, Names { from: name, to }),
        None => usage(rt, b"OUTFILE's name would be too long"),
    }
}

// The octets of a file's frames are judged before any of them is read.
fn with_frames(rt: HostRuntime, file: &File, b: Body, how: Reading, s: Settings, name: &[u8])
    requires { b.skip ≤ heading_length }
{
    if judged(rt, rules::guard_stream(how.law, how.set, b.size)).is_ok() {
        to_other(rt, file, b, how, s, name);
    }
}

// A stream: an option or INFILE's ending tells its law.
fn with_stream(rt: HostRuntime, s: Settings, name: &[u8], fd: &File, size: usize) {
    if s.flags.lists {
        usage(
            rt,
            b"-v lists a recording's items, and this is a stream: listing lists its frames",
        );
        return;
    }
    if let Some(law) = tool_console::law_of(rt, s, name) {
        let how = Reading {
            law,
            set: s.set,
            records: false,
        };
        with_frames(rt, fd, Body { skip: 0, size }, how, s, name);
    }
}

// A recording: its heading tells the law, and an option may not say another. LONG counts from the heading's end.
fn with_recording(rt: HostRuntime, s: Settings, law: u32, name: &[u8], fd: &File, size: usize)
    requires { heading_length ≤ size }
{
    if s.law.unwrap_or(law) != law {
        usage(rt, b"the recording's heading says the other law");
        return;
    }
    let body = Body {
        skip: HEADING,
        size: size - HEADING,
    };
    let how = Reading {
        law,
        set: s.set,
        records: true,
    };
    with_frames(rt, fd, body, how, s, name);
}

// What begins as a recording and has no heading.
fn headless(rt: HostRuntime) {
    tool_console::tell(
        rt,
        Tool::Unpack,
        "a recording's heading is cut, or of another law or version",
    );
    tool_console::refused(rt, Tool::Unpack, 14, 0, 0, 0);
}

// What the file is says what is done with it; its first octets tell.
fn with_file(rt: HostRuntime, s: Settings, name: &[u8], fd: &File, size: usize, first: &[u8]) {
    match tool_playback::kinds::kind_of(first) {
        Kind::Stream => with_stream(rt, s, name, fd, size),
        Kind::Recording(law) if HEADING <= size => with_recording(rt, s, law, name, fd, size),
        Kind::Recording(_) | Kind::Headless => headless(rt),
    }
}

// The file's first octets.
fn begin(rt: HostRuntime, s: Settings, name: &[u8], source: &Source) {
    let mut first = [0u8; 64];
    match tool_console::read_at(&source.fd, 0, &mut first) {
        Ok(n) => with_file(rt, s, name, &source.fd, source.size, &first[..n]),
        Err(why) => unread(rt, name, why),
    }
}

// SET comes before the file.
fn run(rt: HostRuntime, s: Settings, name: &[u8]) {
    if judged(rt, rules::guard(0, s.set)).is_err() {
        return;
    }
    let mut part = [0u8; 61440];
    match source_in(rt, name, &mut part) {
        Ok(source) => begin(rt, s, name, &source),
        Err(why) => unread(rt, name, why),
    }
}

// Whether -l or -w can't be met, and why: a master that is compared is raw G.711, and no ending is known for another form.
fn wrong_form(s: Settings, name: &[u8]) -> Option<&'static [u8]> {
    if matches!(s.form, Form::Raw) {
        None
    } else if s.master.is_some() {
        Some(b"-c compares raw G.711, so -l and -w don't go with it")
    } else if s.outfile.is_none() && !name.is_empty() {
        Some(b"with -l or -w OUTFILE must be said")
    } else {
        None
    }
}

// Whether a master can't be met, and why.
fn wrong_master(rt: HostRuntime, s: Settings, name: &[u8]) -> Option<&'static [u8]> {
    if s.master.is_none() {
        return None;
    }
    if s.outfile.is_some() {
        tool_console::tell(rt, Tool::Unpack, "with -c nothing is written to OUTFILE");
    }
    let mut space = [0u8; 4095];
    let master = tool_console::file_name(rt, s.master, &mut space);
    if name.is_empty() && master.is_empty() {
        return Some(b"INFILE and MASTER can't both be standard input");
    }
    None
}

// "usage, then SET, .., then files, then the file's own"
fn unpack_as(rt: HostRuntime, s: Settings) {
    let mut space = [0u8; 4095];
    let name = tool_console::file_name(rt, s.infile, &mut space);
    let wrong = match wrong_form(s, name) {
        Some(why) => Some(why),
        None => wrong_master(rt, s, name),
    };
    match wrong {
        Some(why) => usage(rt, why),
        None => run(rt, s, name),
    }
}

fn main(rt: HostRuntime) {
    if let Some(s) = tool_console::settings(rt, Tool::Unpack) {
        unpack_as(rt, s);
    }
}
