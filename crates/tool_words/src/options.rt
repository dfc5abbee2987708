// The words of a command line: what an argument is, and the settings that the arguments make.
ghost use Rattle.std.specs.Prelude.{◌≡◌};
ghost use Rattle.tool_words.specs.Arguments.{reads_sound, has_outfile, set_at_first, unpack_letter, pack_letter, why_letter, mend_letter};
ghost use Rattle.tool_words.specs.Arguments.{letter_of, numbered_by, argument_of, at_first, onward, with_file};
ghost use Rattle.tool_words.specs.Arguments.{raised, counted, with_argument, by_state, step_of, end_of, law_of};

use crate::filenames::law_told;
use crate::texts::number_in;
use std::fmt;

// The tools: `unpack`, `pack`, `why`, which says why `pack` takes its tools, and `mend`.
#[derive(Clone, Copy)]
pub enum Tool {
    Unpack,
    Pack,
    Why,
    Mend,
}

impl fmt::Display for Tool {
    fn fmt<W: fmt::Write>(&self, f: &mut fmt::Formatter<W>) -> fmt::Result {
        f.write_str(match self {
            Tool::Unpack => "unpack",
            Tool::Pack => "pack",
            Tool::Why => "why",
            Tool::Mend => "mend",
        })
    }
}

// The form of the sound: raw G.711, linear values, or a WAV file.
#[derive(Clone, Copy)]
pub enum Form {
    Raw,
    Linear,
    Wave,
}

// What is said by an option alone: of `pack` that the sound is filled up, and that a recording is written; of `unpack` that a recording's
// items are listed, and that it goes on over losses.
#[derive(Clone, Copy)]
pub enum Flag {
    Fill,
    Records,
    Lists,
    On,
}

// Four bools, as each is said or not whatever the others are.
#[derive(Clone, Copy)]
pub struct Flags {
    pub fill: bool,
    pub records: bool,
    pub lists: bool,
    pub on: bool,
}

// The number that follows an option: the frame length, the tool set, a frame, or the total of samples.
#[derive(Clone, Copy)]
pub enum Count {
    Length,
    Set,
    Frame,
    Total,
}

// What an argument is: a file; an option that says something; one whose word, a number or MASTER's name, is the next argument; or one with
// its number.
#[derive(Clone, Copy)]
pub enum Argument {
    File,
    Law(u32),
    Form(Form),
    Flag(Flag),
    Waits(Count),
    Master,
    Counts(Count, u32),
}

// What is wrong with an argument: an option that is not known, no number, a file too many, a word that is missing, or it is too long.
#[derive(Clone, Copy)]
pub enum Wrong {
    Unknown,
    NoNumber,
    ManyFiles,
    Missing,
    TooLong,
}

// The argument stands behind these words.
impl fmt::Display for Wrong {
    fn fmt<W: fmt::Write>(&self, f: &mut fmt::Formatter<W>) -> fmt::Result {
        f.write_str(match self {
            Wrong::Unknown => "not a known option: ",
            Wrong::NoNumber => "not a number of 1 to 9 digits: ",
            Wrong::ManyFiles => "one file too many: ",
            Wrong::Missing => "nothing follows the option ",
            Wrong::TooLong => "too long: ",
        })
    }
}

// What is wrong, and with which argument.
#[derive(Clone, Copy)]
pub struct Mistake {
    pub why: Wrong,
    pub place: usize,
}

// What the next argument is to be: any, or the word of an option.
// No Option or Result: it has three cases of its own.
#[derive(Clone, Copy)]
pub enum State {
    Ready,
    Counts(Count),
    Master,
}

// The settings that the arguments make. Files are given by their arguments' numbers. Of all frames where none is said.
#[derive(Clone, Copy)]
pub struct Settings {
    pub tool: Tool,
    pub law: Option<u32>,
    pub form: Form,
    pub flags: Flags,
    pub length: u32,
    pub set: u32,
    pub frame: Option<u32>,
    pub total: Option<u32>,
    pub infile: Option<usize>,
    pub outfile: Option<usize>,
    pub master: Option<usize>,
}

// The settings so far, and what comes next.
#[derive(Clone, Copy)]
pub struct Words {
    pub said: Settings,
    pub state: State,
}

// The tools of before document 02, R-14: all but tool 11. What `pack` writes unless it is told otherwise, boxes in the field must read.
pub const FIELD_TOOLS: u32 = 127;

// Whether a tool reads sound; the others read a stream.
pub fn reads_sound(tool: Tool) -> bool
    ensures { result ≡ reads_sound tool }
{
    matches!(tool, Tool::Pack | Tool::Why)
}

// `why` writes no file.
fn has_outfile(tool: Tool) -> bool
    ensures { result ≡ has_outfile tool }
{
    !matches!(tool, Tool::Why)
}

// The set unless one is said. A reader's larger set changes the answer of no other frame, so what reads frames has all tools.
fn set_at_first(tool: Tool) -> u32
    ensures { result ≡ set_at_first tool }
{
    if reads_sound(tool) {
        FIELD_TOOLS
    } else {
        rules::ALL_TOOLS
    }
}

// Before any argument.
pub fn at_first(tool: Tool) -> Words
    ensures { result ≡ at_first tool }
{
    onward(Settings {
        tool,
        law: None,
        form: Form::Raw,
        flags: Flags {
            fill: false,
            records: false,
            lists: false,
            on: false,
        },
        length: 160,
        set: set_at_first(tool),
        frame: None,
        total: None,
        infile: None,
        outfile: None,
        master: None,
    })
}

fn onward(said: Settings) -> Words
    ensures { result ≡ onward said }
{
    Words {
        said,
        state: State::Ready,
    }
}

// The options of `unpack`, beside the laws: "-l", "-w", "-s#", "-c MASTER", "-v", "-g".
fn unpack_letter(letter: u8) -> Result<Argument, Wrong>
    ensures { result ≡ unpack_letter letter }
{
    match letter {
        b'l' => Ok(Argument::Form(Form::Linear)),
        b'w' => Ok(Argument::Form(Form::Wave)),
        b's' => Ok(Argument::Waits(Count::Set)),
        b'c' => Ok(Argument::Master),
        b'v' => Ok(Argument::Flag(Flag::Lists)),
        b'g' => Ok(Argument::Flag(Flag::On)),
        _ => Err(Wrong::Unknown),
    }
}

// Those of `pack`: "-l", "-w", "-n#", "-s#", "-f", "-r".
fn pack_letter(letter: u8) -> Result<Argument, Wrong>
    ensures { result ≡ pack_letter letter }
{
    match letter {
        b'l' => Ok(Argument::Form(Form::Linear)),
        b'w' => Ok(Argument::Form(Form::Wave)),
        b'n' => Ok(Argument::Waits(Count::Length)),
        b's' => Ok(Argument::Waits(Count::Set)),
        b'f' => Ok(Argument::Flag(Flag::Fill)),
        b'r' => Ok(Argument::Flag(Flag::Records)),
        _ => Err(Wrong::Unknown),
    }
}

// Those of `why`: "-s#", "-n#", "-k#". It reads raw sound alone.
fn why_letter(letter: u8) -> Result<Argument, Wrong>
    ensures { result ≡ why_letter letter }
{
    match letter {
        b's' => Ok(Argument::Waits(Count::Set)),
        b'n' => Ok(Argument::Waits(Count::Length)),
        b'k' => Ok(Argument::Waits(Count::Frame)),
        _ => Err(Wrong::Unknown),
    }
}

// That of `mend`: "-t#".
fn mend_letter(letter: u8) -> Result<Argument, Wrong>
    ensures { result ≡ mend_letter letter }
{
    match letter {
        b't' => Ok(Argument::Waits(Count::Total)),
        _ => Err(Wrong::Unknown),
    }
}

// An option of one letter, or one whose word is the next argument: "-u", "-a", and those of the tool.
fn letter_option(tool: Tool, letter: u8) -> Result<Argument, Wrong>
    ensures { result ≡ letter_of tool letter }
{
    match (letter, tool) {
        (b'u', _) => Ok(Argument::Law(1)),
        (b'a', _) => Ok(Argument::Law(0)),
        (_, Tool::Unpack) => unpack_letter(letter),
        (_, Tool::Pack) => pack_letter(letter),
        (_, Tool::Why) => why_letter(letter),
        (_, Tool::Mend) => mend_letter(letter),
    }
}

// An option with its number: one that waits for a number.
fn numbered_option(option: Argument, rest: &[u8]) -> Result<Argument, Wrong>
    ensures { result ≡ numbered_by option rest.now }
{
    match option {
        Argument::Waits(which) => {
            let n = number_in(rest).ok_or(Wrong::NoNumber)?;
            Ok(Argument::Counts(which, n))
        }
        _ => Err(Wrong::Unknown),
    }
}

// What an argument is; "-" alone is a file, and so is what has no '-' in front; an empty one is nothing that is known.
pub fn argument_in(tool: Tool, text: &[u8]) -> Result<Argument, Wrong>
    ensures { result ≡ argument_of tool text.now }
{
    match text {
        [] => Err(Wrong::Unknown),
        [b'-', letter] => letter_option(tool, *letter),
        [b'-', letter, rest @ ..] => numbered_option(letter_option(tool, *letter)?, rest),
        _ => Ok(Argument::File),
    }
}

// The first file is INFILE, the second OUTFILE, which `why` does not have, and there is no third.
fn with_file(mut s: Settings, index: usize) -> Result<Settings, Wrong>
    ensures { result ≡ with_file s index }
{
    if s.infile.is_none() {
        s.infile = Some(index);
    } else if s.outfile.is_none() && has_outfile(s.tool) {
        s.outfile = Some(index);
    } else {
        return Err(Wrong::ManyFiles);
    }
    Ok(s)
}

// One of the flags is said.
fn raised(mut f: Flags, which: Flag) -> Flags
    ensures { result ≡ raised f which }
{
    match which {
        Flag::Fill => f.fill = true,
        Flag::Records => f.records = true,
        Flag::Lists => f.lists = true,
        Flag::On => f.on = true,
    }
    f
}

// "-n#", "-s#", "-k#", "-t#".
fn counted(mut s: Settings, which: Count, v: u32) -> Settings
    ensures { result ≡ counted s which v }
{
    match which {
        Count::Length => s.length = v,
        Count::Set => s.set = v,
        Count::Frame => s.frame = Some(v),
        Count::Total => s.total = Some(v),
    }
    s
}

fn with_argument(mut s: Settings, a: Argument, index: usize) -> Result<Words, Wrong>
    ensures { result ≡ with_argument s a index }
{
    match a {
        Argument::File => s = with_file(s, index)?,
        Argument::Law(law) => s.law = Some(law),
        Argument::Form(form) => s.form = form,
        Argument::Flag(flag) => s.flags = raised(s.flags, flag),
        Argument::Counts(which, n) => s = counted(s, which, n),
        Argument::Waits(which) => return Ok(Words {
            said: s,
            state: State::Counts(which),
        }),
        Argument::Master => return Ok(Words {
            said: s,
            state: State::Master,
        }),
    }
    Ok(onward(s))
}

// The word of an option that waited for one, or an argument of its own.
fn taken(w: Words, text: &[u8], index: usize) -> Result<Words, Wrong>
    ensures { result ≡ by_state w w.state text.now index }
{
    let mut said = w.said;
    match w.state {
        State::Ready => return with_argument(said, argument_in(said.tool, text)?, index),
        State::Counts(which) => said = counted(
            said,
            which,
            number_in(text).ok_or(Wrong::NoNumber)?,
        ),
        State::Master => said.master = Some(index),
    }
    Ok(onward(said))
}

// The settings after argument `index`, or what is wrong with it.
pub fn step(w: Words, text: &[u8], index: usize) -> Result<Words, Mistake>
    ensures { result ≡ step_of w text.now index }
{
    taken(w, text, index).map_err(|why| Mistake { why, place: index })
}

// The settings after the last argument.
pub fn at_end(w: Words, last: usize) -> Result<Settings, Mistake>
    ensures { result ≡ end_of w last }
{
    match w.state {
        State::Ready => Ok(w.said),
        State::Counts(_) | State::Master => Err(Mistake {
            why: Wrong::Missing,
            place: last,
        }),
    }
}

// The law: as an option says, otherwise as INFILE's name tells.
pub fn law_of(s: Settings, name: &[u8]) -> Option<u32>
    ensures { result ≡ law_of s name.now }
{
    s.law.or_else(|| law_told(reads_sound(s.tool), name))
}
