// The heading of a WAV file, read and written. What is wrong with one is said with what it has.
ghost use Rattle.std.specs.Prelude.{◌+◌, ◌*◌, ◌≤◌, ◌<◌, ◌≡◌, length};
ghost use Rattle.tool_sound.specs.Headings.{half_at, word_at, format_at, sound_of, format_in, step_at, heading_of, heading_for};

use std::fmt;

// Why a heading is refused: no WAV file; another format than PCM, other channels, rate or bits; a format of so few octets;
// no format before the sound; a sound of an odd number of octets; more than 32 chunks before the sound.
#[derive(Clone, Copy)]
pub enum Wrong {
    NotWave,
    Format(u32),
    Channels(u32),
    Rate(u32),
    Bits(u32),
    ShortFormat(u32),
    NoFormat,
    OddSound(u32),
    ManyChunks,
}

impl fmt::Display for Wrong {
    fn fmt<W: fmt::Write>(&self, f: &mut fmt::Formatter<W>) -> fmt::Result {
        match self {
            Wrong::NotWave => write!(f, "this is no WAV file"),
            Wrong::Format(what) => write!(f, "the WAV file has format {what}, and PCM is 1"),
            Wrong::Channels(what) => write!(
                f,
                "the WAV file has {what} channels, and a master has 1"
            ),
            Wrong::Rate(what) => write!(
                f,
                "the WAV file has {what} samples a second, and a master has 8000"
            ),
            Wrong::Bits(what) => write!(
                f,
                "the WAV file has {what} bits a sample, and a master has 16"
            ),
            Wrong::ShortFormat(what) => write!(
                f,
                "the WAV file tells its format in {what} octets, and 16 are needed"
            ),
            Wrong::NoFormat => write!(f, "the WAV file tells no format before its sound"),
            Wrong::OddSound(what) => write!(
                f,
                "the WAV file has a sound of {what} octets, half a sample too many"
            ),
            Wrong::ManyChunks => write!(f, "the WAV file has more than 32 chunks before its sound"),
        }
    }
}

// What octets from a file's start tell: so many octets more are needed, or the heading is whole and a sound of so many octets
// follows.
#[derive(Clone, Copy)]
pub enum Heading {
    More(usize),
    Sound(usize),
}

// After a chunk: its size, and whether a format was met; or the heading is told.
#[derive(Clone, Copy)]
pub enum Step {
    On(u32, bool),
    Ends(Heading),
}

// Two octets at a place, low octet first.
fn half_at(octets: &[u8], at: usize) -> u32
    requires { at + 2 ≤ length octets.now }
    ensures value { result ≡ half_at octets.now at }
    ensures small { result < 65536 }
{
    u32::from(u16::from_le_bytes([octets[at], octets[at + 1]]))
}

// Four octets at a place.
fn word_at(octets: &[u8], at: usize) -> u32
    requires { at + 4 ≤ length octets.now }
    ensures { result ≡ word_at octets.now at }
{
    u32::from_le_bytes([octets[at], octets[at + 1], octets[at + 2], octets[at + 3]])
}

// PCM, mono, 8,000 Hz, 16 bits: anything else is refused with what it is.
fn format_at(octets: &[u8], at: usize, size: u32) -> Result<Step, Wrong>
    requires { at + 16 ≤ length octets.now }
    ensures { result ≡ format_at octets.now at size }
{
    let format = half_at(octets, at);
    if format != 1 {
        return Err(Wrong::Format(format));
    }
    let channels = half_at(octets, at + 2);
    if channels != 1 {
        return Err(Wrong::Channels(channels));
    }
    let rate = word_at(octets, at + 4);
    if rate != 8000 {
        return Err(Wrong::Rate(rate));
    }
    let bits = half_at(octets, at + 14);
    if bits != 16 {
        return Err(Wrong::Bits(bits));
    }
    Ok(Step::On(size, true))
}

// The sound comes after a format, and has whole samples.
fn sound_of(seen: bool, size: u32) -> Result<Heading, Wrong>
    ensures { result ≡ sound_of seen size }
{
    if !seen {
        Err(Wrong::NoFormat)
    } else if size % 2 != 0 {
        Err(Wrong::OddSound(size))
    } else {
        Ok(Heading::Sound(size as usize))
    }
}

// The format's chunk: the format is in its first 16 octets.
fn format_in(octets: &[u8], at: usize, size: u32) -> Result<Step, Wrong>
    requires { at ≤ 274877906944 }
    ensures { result ≡ format_in octets.now at size }
{
    let end = at + 24;
    if size < 16 {
        Err(Wrong::ShortFormat(size))
    } else if octets.len() < end {
        Ok(Step::Ends(Heading::More(end - octets.len())))
    } else {
        format_at(octets, at + 8, size)
    }
}

// The names of the chunks of the format and of the sound, as numbers: `fmt ` and `data`; and `RIFF` and `WAVE`.
const FORMAT: u32 = 0x20746D66;

const DATA: u32 = 0x61746164;

const RIFF: u32 = 0x46464952;

const WAVE: u32 = 0x45564157;

// A chunk: the sound, the format, or one to skip.
fn step_at(octets: &[u8], at: usize, seen: bool) -> Result<Step, Wrong>
    requires { at ≤ 274877906944 }
    ensures { result ≡ step_at octets.now at seen }
{
    let end = at + 8;
    if octets.len() < end {
        return Ok(Step::Ends(Heading::More(end - octets.len())));
    }
    let size = word_at(octets, at + 4);
    match word_at(octets, at) {
        DATA => Ok(Step::Ends(sound_of(seen, size)?)),
        FORMAT => format_in(octets, at, size),
        _ => Ok(Step::On(size, seen)),
    }
}

// The heading at the start of octets. A chunk of an odd size has an octet more.
pub fn heading_in(octets: &[u8]) -> Result<Heading, Wrong>
    ensures { result ≡ heading_of octets.now }
{
    if octets.len() < 12 {
        return Ok(Heading::More(12 - octets.len()));
    }
    if word_at(octets, 0) != RIFF || word_at(octets, 8) != WAVE {
        return Err(Wrong::NotWave);
    }
    let mut at = 12;
    let mut seen = false;
    'chunks: for _ in 0..32usize {
        match step_at(octets, at, seen) {
            Err(why) => return Err(why),
            Ok(Step::Ends(told)) => return Ok(told),
            Ok(Step::On(size, met)) => {
                at = at + 8 + size as usize + (size % 2) as usize;
                seen = met;
            }
        }
    }
    Err(Wrong::ManyChunks)
}

// The heading before a sound of so many octets.
pub fn heading_for(sound: u32) -> [u8; 44]
    ensures { result ≡ heading_for sound }
{
    let n = sound as u64;
    let all = n + 36;
    let mut h =
        *b"RIFF    WAVEfmt \x10\x00\x00\x00\x01\x00\x01\x00\x40\x1F\x00\x00\x80\x3E\x00\x00\x02\x00\x10\x00data    ";
    h[4] = (all % 256) as u8;
    h[5] = (all / 256 % 256) as u8;
    h[6] = (all / 256 / 256 % 256) as u8;
    h[7] = (all / 256 / 256 / 256 % 256) as u8;
    h[40] = (n % 256) as u8;
    h[41] = (n / 256 % 256) as u8;
    h[42] = (n / 256 / 256 % 256) as u8;
    h[43] = (n / 256 / 256 / 256 % 256) as u8;
    h
}
