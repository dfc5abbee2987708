// Recordings from studios (document 02, R-1): the G.711.0 storage file of RFC 7655, read and written.
// What each call answers and leaves stands in specs/Calls; the heading and the marks in specs/Remembered.
#![tactic(auto)]

ghost use Rattle.std.specs.Prelude.{◌≡◌};
ghost use Rattle.recording.specs.declared.Refusal.TheVariants.{Frame};
ghost use Rattle.recording.specs.Calls.{refusal_number, head-not-zero, tool_named};

use rules::Numbered;

pub mod marking;

// HEAD (14), or a refusal of document 01.
#[derive(Clone, Copy)]
pub enum Refusal {
    Head,
    Frame(rules::Refusal),
}

impl From<rules::Refusal> for Refusal {
    ghost from_gives = { λ of why. why ≡ Frame of };

    fn from(of: rules::Refusal) -> Refusal {
        Refusal::Frame(of)
    }
}

// The paper's number of a refusal: HEAD is 14.
impl Numbered for Refusal {
    ghost number = { refusal_number };

    ghost never_zero = { head-not-zero };

    fn number(self) -> u32 {
        match self {
            Refusal::Head => 14,
            Refusal::Frame(of) => of.number(),
        }
    }
}

// How a call ended.
pub type Ending = Result<(), Refusal>;

// "its tool is given for TOOL and is 0 otherwise"
// Apart from that of `rules`: HEAD has no tool, and it is one match.
pub fn tool_of(end: Ending) -> u32
    ensures { result ≡ tool_named end }
{
    match end {
        Err(Refusal::Frame(of)) => of.tool(),
        _ => 0,
    }
}

// Reading a file: its law, its items, the octets after the heading up to its end or the refused item, the samples of its frames, and the
// refusal's bit.
// No Result: `Reads` states each field of a refused call too.
#[derive(Drop)]
pub struct FileRead {
    pub end: Ending,
    pub law: u32,
    pub items: usize,
    pub octets: usize,
    pub samples: usize,
    pub bit: usize,
}

// Writing a file.
// No Result: `Writes` states the octets of a refused call too.
#[derive(Drop)]
pub struct FileWritten {
    pub end: Ending,
    pub octets: usize,
}
