// What the bench tools read and say: their arguments, files, and the lines on standard error. No contract can say what is
// read or written: what a line holds comes from crates `tool_words` and `text_lines`.
#![tactic(auto)]

ghost use Rattle.std.specs.Prelude.{◌≡◌, ◌^◌, ◌≤◌, ◌<◌, IfOk, IfSome, Some, length, pos};
ghost use Rattle.std.specs.IoError.{raw_os_error};
ghost use Rattle.tool_words.specs.Arguments.{law_of};

use std::env::FillError;
use std::fs::{File, OpenOptions};
use std::io::{Cursor, ErrorKind, Print, Read, Seek, SeekFrom, Stdin, Stdout, Write};
use std::os::unix::fs::OpenOptionsExt;
use std::random::RandomSource;
use std::rt::Env;
use std::{fmt, fs, io};
use tool_words::options::{Mistake, Settings, Tool, Words, Wrong};
use tool_words::texts::is_same;

// Says octets, such as a name. Where standard error takes nothing, nothing is said.
// Octets and no &str: names of files and arguments need be no text.
pub fn say(rt: HostRuntime, text: &[u8]) {
    let _ = Print::write_all(&rt.stderr(), text);
}

// Says a line for people, after the tool's name.
pub fn tell<D: fmt::Display + Drop>(rt: HostRuntime, tool: Tool, what: D) {
    let _ = eprintln!(rt; "{tool}: {what}");
}

// The last line of every run: `stop=N at=P tool=T`, and of a run over frames also `bit=B`. A writing has no bit to name.
pub fn stop(rt: HostRuntime, program: Tool, number: u32, place: usize, tool: u32, bit: usize) {
    let mut text = [0u8; 160];
    let n = if tool_words::options::reads_sound(program) {
        text_lines::pack_line(number as usize, place, tool as usize, &mut text, 0)
    } else {
        text_lines::stop_line(number as usize, place, tool as usize, bit, &mut text, 0)
    };
    say(rt, &text[..n]);
}

// A refusal of document 01, or HEAD, and the last line. TOOL names the tool.
pub fn refused(rt: HostRuntime, program: Tool, number: u32, place: usize, tool: u32, bit: usize) {
    let name = tool_words::refusals::refusal_name(number);
    if number == 3 {
        tell(
            rt,
            program,
            format_args!("refused: {name} at octet {place}, tool {tool}"),
        );
    } else {
        tell(
            rt,
            program,
            format_args!("refused: {name} at octet {place}"),
        );
    }
    stop(rt, program, number, place, tool, bit);
}

// What was done.
pub fn summary(rt: HostRuntime, frames: usize, samples: usize, octets: usize) {
    let _ = eprintln!(rt; "frames={frames} samples={samples} octets={octets}");
}

// The same of a recording, with its losses.
pub fn summary_of_recording(
    rt: HostRuntime,
    frames: usize,
    samples: usize,
    octets: usize,
    lost: usize,
) {
    let _ = eprintln!(rt; "frames={frames} samples={samples} octets={octets} lost={lost}");
}

// How a tool is called, and the last line.
fn say_usage(rt: HostRuntime, tool: Tool) {
    let how = match tool {
        Tool::Unpack => "[-u|-a] [-l|-w] [-s#] [-v] [-g] [-c MASTER] [INFILE [OUTFILE]]",
        Tool::Pack => "[-u|-a] [-l|-w] [-n#] [-s#] [-f] [-r] [INFILE [OUTFILE]]",
        Tool::Why => "[-u|-a] [-s#] [-n#] [-k#] [INFILE]",
        Tool::Mend => "[-u|-a] -t TOTAL INFILE OUTFILE",
    };
    let _ = eprintln!(rt; "usage: {tool} {how}");
    stop(rt, tool, 64, 0, 0, 0);
}

// A call that is wrong, why, and the last line. The octets that say why need be no text.
pub fn usage(rt: HostRuntime, tool: Tool, why: &[u8]) {
    match str::from_utf8(why) {
        Ok(text) => tell(rt, tool, text),
        Err(_) => {
            let _ = eprint!(rt; "{tool}: ");
            say(rt, why);
            say(rt, b"\n");
        }
    }
    say_usage(rt, tool);
}

// The law: as an option says, otherwise as INFILE's name tells. That nothing tells it is said.
pub fn law_of(rt: HostRuntime, s: Settings, name: &[u8]) -> Option<u32>
    ensures { result ≡ law_of s name.now }
{
    let law = tool_words::options::law_of(s, name);
    if law.is_none() {
        usage(rt, s.tool, b"the law is not known: say -u or -a");
    }
    law
}

// Settings that are refused before any file is opened: SET and LENGTH say what is allowed.
pub fn refuse_settings(rt: HostRuntime, tool: Tool, number: u32) {
    match number {
        11 => tell(
            rt,
            tool,
            format_args!(
                "the tool set is an odd number of at most {}",
                rules::ALL_TOOLS
            ),
        ),
        10 => tell(rt, tool, "the frame length is 40, 80, 160, 240 or 320"),
        _ => {}
    }
    refused(rt, tool, number, 0, 0, 0);
}

// An argument that is wrong, or its number where it is too long to be told, and the last line.
fn wrong_argument(rt: HostRuntime, tool: Tool, mistake: Mistake) {
    let mut text = [0u8; 4095];
    let Mistake { why, place } = mistake;
    match rt.arg(place, &mut text) {
        Ok(n) => {
            let _ = eprint!(rt; "{tool}: {why}");
            say(rt, &text[..n]);
            say(rt, b"\n");
        }
        Err(_) => tell(rt, tool, format_args!("{why}argument {place}")),
    }
    say_usage(rt, tool);
}

// What all arguments say, and the number of the last one.
pub fn words(rt: HostRuntime, tool: Tool) -> Result<(Words, usize), Mistake> {
    let mut text = [0u8; 4095];
    let mut w = tool_words::options::at_first(tool);
    let mut last = 0;
    for i in 1..usize::MAX {
        match rt.arg(i, &mut text) {
            Ok(n) => w = tool_words::options::step(w, &text[..n], i)?,
            Err(FillError::TooLong) => return Err(Mistake {
                why: Wrong::TooLong,
                place: i,
            }),
            Err(FillError::NotPresent) => break,
        }
        last = i;
    }
    Ok((w, last))
}

fn settings_in(rt: HostRuntime, tool: Tool) -> Result<Settings, Mistake> {
    let (w, last) = words(rt, tool)?;
    tool_words::options::at_end(w, last)
}

// The settings that the arguments make; which of them is wrong, and why, is said.
pub fn settings(rt: HostRuntime, tool: Tool) -> Option<Settings> {
    match settings_in(rt, tool) {
        Ok(s) => Some(s),
        Err(mistake) => {
            wrong_argument(rt, tool, mistake);
            None
        }
    }
}

// The name of the file that an argument gives. It is empty where there is no argument or it is "-": that is standard input or output.
pub fn file_name<'a>(rt: HostRuntime, index: Option<usize>, space: &'a mut [u8]) -> &'a [u8]
    ensures { length result.now ≤ length space.old }
{
    let Some(i) = index else {
        return b"";
    };
    match rt.arg(i, space) {
        Ok(n) if !is_same(&space[..n], b"-") => &space[..n],
        _ => b"",
    }
}

// The name of the file that is written: OUTFILE; without it, standard output where INFILE is standard input, else INFILE's name with a new
// ending. There is none where that does not fit.
pub fn target_name<'a>(
    rt: HostRuntime,
    s: Settings,
    law: u32,
    source: &[u8],
    space: &'a mut [u8],
) -> Option<&'a [u8]>
    ensures { IfSome result (λ name. length name.now ≤ length space.old) }
{
    if s.outfile.is_some() {
        return Some(file_name(rt, s.outfile, space));
    }
    if source.is_empty() {
        return Some(b"");
    }
    let packs = tool_words::options::reads_sound(s.tool);
    let n = tool_words::filenames::new_name(packs, law, source, space)?;
    Some(&space[..n])
}

// What is read: standard input, or a file that was opened.
#[derive(Drop)]
pub enum InFile {
    Standard(Stdin),
    Named(File),
}

// What is written: standard output, or a file that was opened.
#[derive(Drop)]
pub enum OutFile {
    Standard(Stdout),
    Named(File),
}

// The system's number of an error: these octets are no text.
const NO_TEXT: i32 = 84;

// A name as a path. The library opens files by names that are UTF-8 text, and by no others.
fn path_in(name: &[u8]) -> io::Result<&str> {
    str::from_utf8(name).map_err(|_| io::Error::from_raw_os_error(NO_TEXT))
}

// A file to read, or standard input; the error says why it can't be opened.
pub fn open_in(rt: HostRuntime, name: &[u8]) -> io::Result<InFile> {
    if name.is_empty() {
        return Ok(InFile::Standard(rt.stdin()));
    }
    Ok(InFile::Named(fs::open(&rt, path_in(name)?)?))
}

// A file to write, emptied or made, or standard output; the error says why it can't be opened.
pub fn open_out(rt: HostRuntime, name: &[u8]) -> io::Result<OutFile> {
    if name.is_empty() {
        return Ok(OutFile::Standard(rt.stdout()));
    }
    Ok(OutFile::Named(fs::create(&rt, path_in(name)?)?))
}

// Octets to a file; after an error some of them may be written.
pub fn write_out(fd: &OutFile, octets: &[u8]) -> io::Result<()> {
    match fd {
        OutFile::Standard(to) => Print::write_all(to, octets),
        OutFile::Named(file) => write_kept(file, octets),
    }
}

// The same of a file that has no name.
pub fn write_kept(fd: &File, octets: &[u8]) -> io::Result<()> {
    let mut to = fd;
    to.write_all(octets)
}

// Whether an error only says that this is no file whose octets are brought to a disk.
fn has_no_disk(why: io::Error) -> bool {
    matches!(
        why.kind(),
        ErrorKind::InvalidInput | ErrorKind::Unsupported | ErrorKind::ReadOnlyFilesystem
    )
}

// Closes a file that was written; standard output stays open. The library tells no error of the closing itself, so the octets are brought
// to the disk before it: what a closing would tell is told by that.
pub fn close(fd: OutFile) -> io::Result<()> {
    match fd {
        OutFile::Standard(_) => Ok(()),
        OutFile::Named(file) => match file.sync_all() {
            Err(why) if has_no_disk(why) => Ok(()),
            end => end,
        },
    }
}

// Where the error's number begins that stands after its text.
fn text_end(text: &[u8]) -> usize
    ensures { result ≤ length text.now }
{
    match text.iter().rposition(|x| *x == b'(') {
        Some(i) if 0 < i => i - 1,
        _ => text.len(),
    }
}

// Why something failed, in the system's words.
fn say_why(rt: HostRuntime, why: io::Error) {
    let mut out = Cursor::new([0u8; 320]);
    let _ = write!(out, "{why}");
    let to = out.position();
    let text = out.into_inner();
    if 320 < to {
        return;
    }
    let all: &[u8] = &text[..to as usize];
    match why.raw_os_error() {
        Some(_) => say(rt, &all[..text_end(all)]),
        None => say(rt, all),
    }
}

// The error where no call failed.
pub fn no_error() -> io::Error
    ensures { raw_os_error result ≡ Some (pos 0) }
{
    io::Error::from_raw_os_error(0)
}

// A file that could not be opened, read or written: why, and the last line.
pub fn failed(rt: HostRuntime, tool: Tool, name: &[u8], standard: &[u8], why: io::Error) {
    let _ = eprint!(rt; "{tool}: ");
    if name.is_empty() {
        say(rt, standard);
    } else {
        say(rt, name);
    }
    say(rt, b": ");
    say_why(rt, why);
    say(rt, b"\n");
    stop(rt, tool, 74, 0, 0, 0);
}

// The same of a file that is read, and of one that is written.
pub fn unread(rt: HostRuntime, tool: Tool, name: &[u8], why: io::Error) {
    failed(rt, tool, name, b"standard input", why);
}

pub fn unwritten(rt: HostRuntime, tool: Tool, name: &[u8], why: io::Error) {
    failed(rt, tool, name, b"standard output", why);
}

// The names of what is read, and of what is written or compared.
#[derive(Clone, Copy)]
pub struct Names<'a> {
    pub from: &'a [u8],
    pub to: &'a [u8],
}

// Reads until the octets lent are full or the input ends: how many were read, or why a read failed.
// A `while`: how many octets a read gives is known when it is done.
fn fill<R: Read>(from: &mut R, buf: &mut [u8]) -> io::Result<usize>
    ensures { IfOk result (λ n. n ≤ length buf.new) }
{
    let mut done = 0;
    while done < buf.len() {
        let n = from.read(&mut buf[done..])?;
        if n == 0 {
            break;
        }
        done += n;
    }
    Ok(done)
}

// Reads until the octets lent are full, the file ends or a read fails.
pub fn read_part(fd: &InFile, buf: &mut [u8]) -> io::Result<usize>
    ensures { IfOk result (λ n. n ≤ length buf.new) }
{
    match fd {
        InFile::Standard(input) => {
            let mut from = input;
            fill(&mut from, buf)
        }
        InFile::Named(file) => {
            let mut from = file;
            fill(&mut from, buf)
        }
    }
}

// A file that can be read from any place on, and how many octets it has.
#[derive(Drop)]
pub struct Source {
    pub fd: File,
    pub size: usize,
}

// One part more, kept in another file.
fn count_part(fd: &InFile, keep: &File, part: &mut [u8]) -> io::Result<usize>
    ensures { IfOk result (λ n. n ≤ length part.new) }
{
    let n = read_part(fd, part)?;
    write_kept(keep, &part[..n])?;
    Ok(n)
}

// How many octets a file has, kept in another; no more parts are read once they are above `most`.
// A `while`: how many octets a part has is known when it is read.
fn counted(fd: &InFile, keep: &File, most: usize, part: &mut [u8]) -> io::Result<usize>
    requires { (1 ≤ length part.old) × (length part.old < 2 ^ 32) × (most < 2 ^ 32) }
{
    let mut size = 0;
    while size <= most {
        let n = count_part(fd, keep, part)?;
        size += n;
        if n < part.len() {
            break;
        }
    }
    Ok(size)
}

// The letters that end the name of a file that has none for long.
const LETTERS: usize = 6;

// How many names are tried; another program may have made files of the same names.
const NAMES: usize = 238328;

// The system's number of an error: there is a file of that name.
const NAME_TAKEN: i32 = 17;

// A name that no file should have yet: /tmp/g7110. and six letters. Where none can be drawn, they are told by how many were tried.
fn some_name(rt: HostRuntime, tried: usize) -> [u8; 17] {
    let mut name = *b"/tmp/g7110.XXXXXX";
    let mut drawn = [0u8; LETTERS];
    let _ = rt.fill_bytes(&mut drawn);
    let mut n = tried;
    for (letter, x) in name[11..].iter_mut().zip(drawn.iter()) {
        *letter = b'a' + ((usize::from(*x) + n % 26) % 26) as u8;
        n /= 26;
    }
    name
}

// A file of such a name, read and written by its owner alone, unlinked at once.
fn made(rt: HostRuntime, name: &[u8]) -> io::Result<File> {
    let path = path_in(name)?;
    let file = OpenOptions::new()
        .read(true)
        .write(true)
        .create_new(true)
        .mode(0o600)
        .open(&rt, path)?;
    let _ = fs::remove_file(&rt, path);
    Ok(file)
}

// A file that has no name, to keep octets in: it is made as /tmp/g7110.XXXXXX and unlinked at once; the error says why none can be made.
pub fn nameless(rt: HostRuntime) -> io::Result<File> {
    for tried in 0..NAMES {
        match made(rt, &some_name(rt, tried)) {
            Err(why) if why.kind() == ErrorKind::AlreadyExists => {}
            end => return end,
        }
    }
    Err(io::Error::from_raw_os_error(NAME_TAKEN))
}

// A file that was opened, to be read from any place on: its octets are first kept in a file that has no name. So a pipe can be read, and a
// file may be written into itself.
pub fn source_of(rt: HostRuntime, fd: &InFile, most: usize, part: &mut [u8]) -> io::Result<Source>
    requires { (1 ≤ length part.old) × (length part.old < 2 ^ 32) × (most < 2 ^ 32) }
{
    let keep = nameless(rt)?;
    let size = counted(fd, &keep, most, part)?;
    Ok(Source { fd: keep, size })
}

// Reads from a place on, until the octets lent are full, the file ends or a read fails.
pub fn read_at(fd: &File, at: usize, buf: &mut [u8]) -> io::Result<usize>
    requires { at < 2 ^ 32 }
    ensures { IfOk result (λ n. n ≤ length buf.new) }
{
    let mut from = fd;
    from.seek(SeekFrom::Start(at as u64))?;
    fill(&mut from, buf)
}
