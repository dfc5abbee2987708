// The forms in which the bench tools read and write a sound: raw G.711, linear values of 16 bits, a WAV file of them; and a sound compared
// with a master.
// No contract can say what is read or written. What octets mean stands in `masters` and `wave`.
ghost use Rattle.std.specs.Prelude.{◌≤◌, ◌<◌, IfOk, IfSome, length};
ghost use Rattle.tool_sound.specs.Uses.{UsesUpTo};

use crate::wave::Heading;
use std::{fmt, io};
use tool_console::{InFile, OutFile};
use tool_words::options::{Form, Tool};

// A part that was read: its samples, and how many octets the file should still have.
#[derive(Clone, Copy)]
pub struct Heard {
    pub count: usize,
    pub left: usize,
}

// At most so many octets, read as linear values: the samples, and how many octets came.
fn read_values(
    fd: &InFile,
    law: u32,
    most: usize,
    octets: &mut [u8],
    part: &mut [u8],
) -> io::Result<Heard>
    requires { most ≤ length octets.old }
    ensures { IfOk result (λ h. h.count ≤ length part.new) }
{
    let left = tool_console::read_part(fd, &mut octets[..most])?;
    let count = crate::masters::sound_of(&octets[..left], law, part);
    Ok(Heard { count, left })
}

// The octets of a part's linear values, two for each sample.
const VALUES: usize = 122880;

// The same with octets of its own.
fn read_linear(fd: &InFile, law: u32, most: usize, part: &mut [u8]) -> io::Result<Heard>
    requires { most ≤ 122880 }
    ensures { IfOk result (λ h. h.count ≤ length part.new) }
{
    let mut octets = [0u8; VALUES];
    read_values(fd, law, most, &mut octets, part)
}

// The next samples of a sound, as many as the part holds: 61,440. Linear values without a heading have the other half of a value left, a
// WAV file all octets but those that came; no more of it are read than it should have.
pub fn read_part(
    fd: &InFile,
    form: Form,
    law: u32,
    left: usize,
    part: &mut [u8],
) -> io::Result<Heard>
    ensures { IfOk result (λ h. h.count ≤ length part.new) }
{
    match form {
        Form::Raw => {
            let count = tool_console::read_part(fd, part)?;
            Ok(Heard { count, left: 0 })
        }
        Form::Linear => {
            let heard = read_linear(fd, law, VALUES, part)?;
            Ok(Heard {
                count: heard.count,
                left: heard.left % 2,
            })
        }
        Form::Wave => {
            let heard = read_linear(fd, law, left.min(VALUES), part)?;
            Ok(Heard {
                count: heard.count,
                left: left.saturating_sub(heard.left),
            })
        }
    }
}

// So many octets more of a heading, and where they end; none where they don't come.
fn more_octets(fd: &InFile, n: usize, k: usize, space: &mut [u8]) -> Option<usize>
    requires { n ≤ length space.old }
    ensures { IfSome result (λ end. (n < end) × (end ≤ length space.new)) }
{
    if k == 0 || space.len() - n < k {
        return None;
    }
    let end = n + k;
    match tool_console::read_part(fd, &mut space[n..end]) {
        Ok(came) if k <= came => Some(end),
        _ => None,
    }
}

// The heading of a WAV file, octets after octets as it asks for them: the octets of its sound. Why there is none is said.
fn read_heading(rt: HostRuntime, fd: &InFile, space: &mut [u8]) -> Option<usize> {
    let mut n = 0;
    loop {
        match crate::wave::heading_in(&space[..n]) {
            Ok(Heading::Sound(size)) => return Some(size),
            Ok(Heading::More(k)) => match more_octets(fd, n, k, space) {
                Some(end) => n = end,
                None => {
                    tool_console::tell(
                        rt,
                        Tool::Pack,
                        "the WAV file ends inside its heading, or the heading is too long",
                    );
                    return None;
                }
            },
            Err(why) => {
                tool_console::tell(rt, Tool::Pack, why);
                return None;
            }
        }
    }
}

// What comes before the sound is read, a heading in a WAV file, else nothing: how many octets the sound should have, 0 where nothing tells
// it. There is none where it is refused, and why is said.
pub fn open_sound(rt: HostRuntime, fd: &InFile, form: Form, space: &mut [u8]) -> Option<usize> {
    match form {
        Form::Raw | Form::Linear => Some(0),
        Form::Wave => read_heading(rt, fd, space),
    }
}

// A part of a sound, written as linear values. A part has at most 61,440 samples.
fn write_linear(fd: &OutFile, law: u32, sound: &[u8]) -> io::Result<()> {
    if 61440 < sound.len() {
        return Err(tool_console::no_error());
    }
    let mut octets = [0u8; VALUES];
    let n = crate::masters::master_of(sound, law, &mut octets);
    tool_console::write_out(fd, &octets[..n])
}

// A part of a sound, written in its form; after an error some of it may be written.
fn write_part(fd: &OutFile, form: Form, law: u32, sound: &[u8]) -> io::Result<()> {
    match form {
        Form::Raw => tool_console::write_out(fd, sound),
        Form::Linear | Form::Wave => write_linear(fd, law, sound),
    }
}

// The heading of a WAV file of so many samples, where its length can tell them; after an error some of it may be written.
pub fn write_heading(fd: &OutFile, samples: usize) -> io::Result<()> {
    if 0x7FFFFFFF < samples {
        return Err(tool_console::no_error());
    }
    let heading = crate::wave::heading_for((2 * samples) as u32);
    tool_console::write_out(fd, &heading)
}

// How a master is unlike the sound: it differs, is shorter or is longer.
#[derive(Clone, Copy)]
pub enum Unlike {
    Differs,
    Shorter,
    Longer,
}

// The place stands behind these words.
impl fmt::Display for Unlike {
    fn fmt<W: fmt::Write>(&self, f: &mut fmt::Formatter<W>) -> fmt::Result {
        f.write_str(match self {
            Unlike::Shorter => "the master is shorter: it ends at octet",
            Unlike::Longer => "the master is longer: the sound ends at octet",
            Unlike::Differs => "the sound differs from the master at octet",
        })
    }
}

// What is wrong with the files of a sound: the file that is written or compared fails, and why; the master is unlike the sound; the file
// that is played can't be read, and why.
#[derive(Clone, Copy)]
pub enum Trouble {
    Failed(io::Error),
    Master(Unlike),
    Unread(io::Error),
}

// What came of a part's sound: what is wrong, and how many octets are well.
#[derive(Clone, Copy)]
pub struct Used {
    pub end: Result<(), Trouble>,
    pub good: usize,
}

// What is done with a sound: it is compared with a master, written to a file in a form, or only counted.
#[derive(Clone, Copy)]
pub enum Way<'a> {
    Compared(&'a InFile),
    Written(&'a OutFile, Form),
    Counted,
}

// A part of a sound, written in its form, and what came of it.
fn written(fd: &OutFile, form: Form, law: u32, sound: &[u8]) -> Used
    ensures { UsesUpTo (length sound.now) result }
{
    match write_part(fd, form, law, sound) {
        Ok(()) => Used {
            end: Ok(()),
            good: sound.len(),
        },
        Err(why) => Used {
            end: Err(Trouble::Failed(why)),
            good: 0,
        },
    }
}

// A part of a sound, compared with as much of the master.
fn compared(fd: &InFile, sound: &[u8], master: &mut [u8]) -> Used
    requires { length sound.now ≤ length master.old }
    ensures { UsesUpTo (length sound.now) result }
{
    let n = sound.len();
    match tool_console::read_part(fd, &mut master[..n]) {
        Err(why) => Used {
            end: Err(Trouble::Failed(why)),
            good: 0,
        },
        Ok(m) => {
            let good = crate::comparing::agree(sound, &master[..m]);
            let end = if good == n {
                Ok(())
            } else if good == m {
                Err(Trouble::Master(Unlike::Shorter))
            } else {
                Err(Trouble::Master(Unlike::Differs))
            };
            Used { end, good }
        }
    }
}

// A part of a sound, written, compared or counted.
pub fn use_sound(way: Way<'_>, law: u32, sound: &[u8], master: &mut [u8]) -> Used
    requires { length sound.now ≤ length master.old }
    ensures { UsesUpTo (length sound.now) result }
{
    match way {
        Way::Compared(fd) => compared(fd, sound, master),
        Way::Written(fd, form) => written(fd, form, law, sound),
        Way::Counted => Used {
            end: Ok(()),
            good: sound.len(),
        },
    }
}

// What is wrong with a master after its octets for all the sound: nothing, or it is longer.
pub fn left_over(fd: &InFile) -> Result<(), Trouble> {
    let mut one = [0u8; 1];
    match tool_console::read_part(fd, &mut one).map_err(Trouble::Failed)? {
        0 => Ok(()),
        _ => Err(Trouble::Master(Unlike::Longer)),
    }
}

// How a master is unlike the sound, and where; and the last line.
pub fn differs(rt: HostRuntime, how: Unlike, place: usize) {
    tool_console::tell(rt, Tool::Unpack, format_args!("{how} {place}"));
    tool_console::stop(rt, Tool::Unpack, 65, place, 0, 0);
}
