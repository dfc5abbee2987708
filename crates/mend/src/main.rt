// The bench tool `mend`: a damaged greeting and its true total of samples to a greeting of that total. What is kept and what is filled
// stands in crate `mending`. The result is whole before OUTFILE is opened, so a refused greeting leaves that file as it was. Greeting and
// result are held whole, so the program needs some 2.1 MiB of stack.
#![tactic(auto)]

ghost use Rattle.std.specs.Prelude.{◌≤◌, length, IfSome};

use mending::MendAnswer;
use rules::LONGEST;
use std::io;
use tool_words::options::{Settings, Tool};
use tool_words::refusals::refusal_name;

// A call that can't be made, why, and the last line.
fn usage(rt: HostRuntime, why: &[u8]) {
    tool_console::usage(rt, Tool::Mend, why);
}

// Reads the greeting, and one octet more where it is too long: how many octets it has. Why it can't be read is said.
fn read_greeting(rt: HostRuntime, name: &[u8], greeting: &mut [u8]) -> Option<usize>
    ensures { IfSome result (λ n. n ≤ length greeting.new) }
{
    let read = match tool_console::open_in(rt, name) {
        Ok(fd) => tool_console::read_part(&fd, greeting),
        Err(why) => Err(why),
    };
    match read {
        Ok(n) => Some(n),
        Err(why) => {
            tool_console::unread(rt, Tool::Mend, name, why);
            None
        }
    }
}

// The result to a file, emptied or made; after an error some of it may be written.
fn write_result(rt: HostRuntime, name: &[u8], res: &[u8]) -> io::Result<()> {
    let fd = tool_console::open_out(rt, name)?;
    tool_console::write_out(&fd, res)?;
    tool_console::close(fd)
}

// A greeting that is not mended, by the name of a refusal of document 01 or TOTAL; and the last line.
fn refused(rt: HostRuntime, number: u32) {
    let name = match number {
        22 => "TOTAL",
        _ => refusal_name(number),
    };
    tool_console::tell(rt, Tool::Mend, format_args!("refused: {name}"));
    tool_console::stop(rt, Tool::Mend, number, 0, 0, 0);
}

// Why the walk of what is kept stopped, in words, or nothing where it went through the whole greeting; what was kept and filled; and the
// last line, whose place is the end of the octets written.
fn finish(rt: HostRuntime, a: MendAnswer) {
    let walk = rules::number_of(a.stop);
    let tool = rules::tool_of(a.stop);
    let (kept, bit) = (a.kept, a.bit);
    if walk != 0 {
        let name = refusal_name(walk);
        tool_console::tell(
            rt,
            Tool::Mend,
            format_args!("the walk stopped: {name} at octet {kept}, bit {bit}"),
        );
    }
    let _ = eprintln!(rt; "frames={} kept={kept} filled={}", a.frames, a.filled);
    let _ = eprintln!(rt; "walk={walk} at={kept} tool={tool} bit={bit}");
    tool_console::stop(rt, Tool::Mend, 0, a.octets, 0, 0);
}

// A greeting is read, mended and written.
fn mend_in(
    rt: HostRuntime,
    law: u32,
    total: u64,
    name: &[u8],
    other: &[u8],
    greeting: &mut [u8],
    res: &mut [u8],
) {
    let Some(n) = read_greeting(rt, name, greeting) else {
        return;
    };
    let a = mending::mend(&greeting[..n], law, total, res);
    let number = rules::number_of(a.end);
    if number != 0 {
        refused(rt, number);
        return;
    }
    match write_result(rt, other, &res[..a.octets]) {
        Ok(()) => finish(rt, a),
        Err(why) => tool_console::unwritten(rt, Tool::Mend, other, why),
    }
}

// The octets of the longest greeting, and one more.
const ROOM: usize = LONGEST + 1;

// There is room for one octet more than a greeting may have, so that a longer one is LONG, and for the longest result, so that ROOM can't
// be. A function of its own: as slices the two arrays that `run` makes are more than the checker's stack holds.
fn with_room(
    rt: HostRuntime,
    law: u32,
    total: u64,
    name: &[u8],
    other: &[u8],
    greeting: &mut [u8; ROOM],
    res: &mut [u8; LONGEST],
) {
    mend_in(rt, law, total, name, other, greeting, res);
}

fn run(rt: HostRuntime, law: u32, total: u64, name: &[u8], other: &[u8]) {
    let mut greeting = [0u8; ROOM];
    let mut result = [0u8; LONGEST];
    with_room(rt, law, total, name, other, &mut greeting, &mut result);
}

// The law: as an option says, otherwise as INFILE's ending tells.
fn mend_as(rt: HostRuntime, s: Settings, total: u32) {
    let mut space = [0u8; 4095];
    let name = tool_console::file_name(rt, s.infile, &mut space);
    let mut names = [0u8; 4095];
    let other = tool_console::file_name(rt, s.outfile, &mut names);
    if let Some(law) = tool_console::law_of(rt, s, name) {
        run(rt, law, u64::from(total), name, other);
    }
}

// The settings without the last word that is missing: a total that does not follow its option is a total that is not said.
fn main(rt: HostRuntime) {
    let Ok((w, _)) = tool_console::words(rt, Tool::Mend) else {
        usage(
            rt,
            b"an argument is not known, or no number of 1 to 9 digits",
        );
        return;
    };
    let Some(total) = w.said.total else {
        usage(rt, b"the total is not said");
        return;
    };
    if w.said.outfile.is_none() {
        usage(rt, b"INFILE and OUTFILE must be said");
        return;
    }
    mend_as(rt, w.said, total);
}
