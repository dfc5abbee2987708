// The vocabulary of document 01: a frame, the thirteen refusals, the limits with what is asked before all else, and the answers of the
// three calls.
// What each case and each answer means stands in specs/.
#![tactic(auto)]

ghost use Rattle.std.specs.Prelude.{◌≡◌, ℕ, length};
ghost use Rattle.rules.specs.Refusals.{refusal_number, refusal_tool, numbered, tool_named, verdict};
ghost use Rattle.rules.specs.Refusals.{refusal-not-zero};
ghost use Rattle.rules.specs.Tools.{is_length, reader_asks, writer_asks};
ghost use Rattle.rules.specs.Walk.{walk_asks};

// "One frame with its samples and its length travel together". A reader leaves 00 past the length; a writer does not look there.
#[derive(Clone, Copy)]
pub struct Frame {
    pub samples: [u8; 320],
    pub len: usize,
}

// "Numbered refusals", in the order of their numbers; TOOL gives its tool.
#[derive(Clone, Copy)]
pub enum Refusal {
    Short,
    Prefix,
    Tool(u32),
    Room,
    Case,
    Method,
    Run,
    Place,
    Align,
    Length,
    Set,
    Law,
    Long,
}

// What refuses a call has a number in the paper's list, and none has 0.
pub trait Numbered {
    ghost number: { Self → ℕ };

    fn number(self) -> u32
        ensures { result ≡ number self };

    ghost never_zero: { (why : Self) → number why ≡ 0 → ⊥ };
}

impl Numbered for Refusal {
    ghost number = { refusal_number };

    ghost never_zero = { refusal-not-zero };

    fn number(self) -> u32 {
        match self {
            Refusal::Short => 1,
            Refusal::Prefix => 2,
            Refusal::Tool(_) => 3,
            Refusal::Room => 4,
            Refusal::Case => 5,
            Refusal::Method => 6,
            Refusal::Run => 7,
            Refusal::Place => 8,
            Refusal::Align => 9,
            Refusal::Length => 10,
            Refusal::Set => 11,
            Refusal::Law => 12,
            Refusal::Long => 13,
        }
    }
}

impl Refusal {
    // "tool 0, save that TOOL gives the tool"
    pub fn tool(self) -> u32
        ensures { result ≡ refusal_tool self }
    {
        match self {
            Refusal::Tool(t) => t,
            _ => 0,
        }
    }
}

// How a call ended: accepted, or refused.
pub type Ending = Result<(), Refusal>;

// An accepted call has the number 0, a refused one its refusal's, whatever it answers and by whichever refusals.
pub fn number_of<T: Drop, W: Numbered>(end: Result<T, W>) -> u32
    ensures { result ≡ numbered W.number end }
{
    match end {
        Ok(_) => 0,
        Err(why) => why.number(),
    }
}

// "its tool is given for TOOL and is 0 otherwise"
pub fn tool_of(end: Ending) -> u32
    ensures { result ≡ tool_named end }
{
    match end {
        Ok(()) => 0,
        Err(why) => why.tool(),
    }
}

// Each limit has one name here and one in the paper (`most_law`, `all_tools`, `longest`, `most_listed`, `listed_tools`).
// "The law is 0 for A, 1 for mu."
pub const MOST_LAW: u32 = 1;

// "A tool set is a number from 0 to 127"; document 02, R-14: "so sets run to 255".
pub const ALL_TOOLS: u32 = 255;

// A walk given more octets is LONG. Document 02, R-11: "Walks take up to 1,048,576 octets".
pub const LONGEST: usize = 1048576;

// The listing program's own: "a stream of at most 65,535 octets; set 127".
pub const MOST_LISTED: usize = 65535;

pub const LISTED_TOOLS: u32 = 127;

// Values over as many others. A loop, since std's `copy_from_slice` asks the C library for memmove, which the archive does without.
pub fn copy_over<T: Copy>(to: &mut [T], from: &[T])
    requires { length to.old ≡ length from.now }
    ensures len { length to.new ≡ length to.old }
    ensures after { to.new ≡ from.now }
{
    for (i, &x) in from.iter().enumerate() {
        to[i] = x;
    }
}

// "Order: LAW, SET": what a reader asks.
pub fn guard(law: u32, set: u32) -> Ending
    ensures { result ≡ verdict (reader_asks law set) }
{
    if MOST_LAW < law {
        return Err(Refusal::Law);
    }
    if ALL_TOOLS < set {
        return Err(Refusal::Set);
    }
    Ok(())
}

// "Order: LAW, SET, then .. LONG": what a walk over so many octets asks.
pub fn guard_stream(law: u32, set: u32, octets: usize) -> Ending
    ensures { result ≡ verdict (walk_asks law set octets) }
{
    guard(law, set)?;
    if LONGEST < octets {
        return Err(Refusal::Long);
    }
    Ok(())
}

// What a writer asks: "A writer's set must hold tool 1, so it is odd."
pub fn guard_writer(law: u32, set: u32) -> Ending
    ensures { result ≡ verdict (writer_asks law set) }
{
    guard(law, set)?;
    if set % 2 == 0 {
        return Err(Refusal::Set);
    }
    Ok(())
}

// The lengths of frames that have samples; another is LENGTH.
pub fn is_length(n: usize) -> bool
    ensures { result ≡ is_length n }
{
    matches!(n, 40 | 80 | 160 | 240 | 320)
}

// Reading one frame; `bit` is the refusal's (document 02, R-7).
#[derive(Drop)]
pub struct ReadAnswer {
    pub end: Ending,
    pub frame: Frame,
    pub octets: usize,
    pub bits: usize,
    pub tool: u32,
    pub bit: usize,
}

// Walking a stream: what was kept, the place of the refused frame, and its bit.
#[derive(Drop)]
pub struct WalkAnswer {
    pub end: Ending,
    pub frames: usize,
    pub octets: usize,
    pub samples: usize,
    pub place: usize,
    pub bit: usize,
}

// Writing one frame.
#[derive(Drop)]
pub struct WriteAnswer {
    pub end: Ending,
    pub octets: usize,
    pub bits: usize,
    pub tool: u32,
}
