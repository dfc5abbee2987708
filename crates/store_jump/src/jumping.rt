// Jump to a second (document 02, R-9): the frame that holds a sample of a greeting, from the last mark at or before it.
// What each step answers stands in specs/Jump, the call's contract in specs/Calls.
ghost use Rattle.std.specs.Prelude.{◌≡◌, ◌*◌, ◌^◌, ◌≤◌, ◌<◌, length, get_or};
ghost use Rattle.store_rows.specs.Limits.{largest_block};
ghost use Rattle.store_rows.specs.Rows.{greeting};
ghost use Rattle.store_rows.specs.Cells.{rows_of};
ghost use Rattle.store_rows.specs.Changed.{nth};
ghost use Rattle.store_greeting.specs.Marks.{mark_of};
ghost use Rattle.store_notes.specs.Notes.{nth_note};
ghost use Rattle.store_notes.specs.Cells.{note_by, notes_of};
ghost use Rattle.store_notes.specs.Sane.{Noted};
ghost use Rattle.store_jump.specs.Jump.{counted, jump_from, jump_in, jump_among};
ghost use Rattle.store_jump.specs.Calls.{refusal_number, refusal-not-zero, told_of, Jump};

use crate::seeking::Sought;
use rules::Numbered;
use store_notes::Head;

// "Refusals, in order: NUMBER, ABSENT, BEYOND"; TABLE comes first, and BAD where the marks are false.
#[derive(Clone, Copy)]
pub enum Refusal {
    Number,
    Absent,
    Bad,
    Beyond,
    Table,
}

// The frame, its octet place, the sample's place in it, and the frames read.
#[derive(Clone, Copy)]
pub struct Told {
    pub frame: usize,
    pub place: usize,
    pub inside: usize,
    pub read: usize,
}

pub type Answer = Result<Told, Refusal>;

impl Numbered for Refusal {
    ghost number = { refusal_number };

    ghost never_zero = { refusal-not-zero };

    fn number(self) -> u32 {
        match self {
            Refusal::Number => 15,
            Refusal::Absent => 17,
            Refusal::Bad => 18,
            Refusal::Beyond => 21,
            Refusal::Table => 26,
        }
    }
}

// What an accepted call tells; a refused one tells zeros.
pub fn told_of(a: Answer) -> Told
    ensures { result ≡ told_of a }
{
    a.unwrap_or(Told {
        frame: 0,
        place: 0,
        inside: 0,
        read: 0,
    })
}

// "The answer counts the frames read, from that mark up to and including the one named": a mark's frame is a multiple of 64.
fn count_read(s: Sought) -> Answer
    ensures { result ≡ counted s }
{
    match s {
        Some((frame, place, inside)) => Ok(Told {
            frame,
            place,
            inside,
            read: frame % store_greeting::marks::FRAMES_APART + 1,
        }),
        None => Err(Refusal::Bad),
    }
}

// From mark k of a greeting, which stands at an octet place with so many samples before it.
fn from_mark(octets: &[u8], law: u32, k: usize, at: usize, before: usize, sample: usize) -> Answer
    requires { (k < 2 ^ 32) × (before < 2 ^ 60) }
    ensures { result ≡ jump_from law octets.now k (mark_of at before) sample }
{
    if sample < before {
        return Err(Refusal::Bad);
    }
    let first = store_greeting::marks::FRAMES_APART * k;
    count_read(crate::seeking::seek_on(octets, law, at, first, before, sample))
}

// In a greeting with its note: BEYOND, and then from the last mark at or before the sample.
fn within(octets: &[u8], head: Head, marks: &[u32], sample: usize) -> Answer
    requires { (2 * head.marks ≤ length marks.now) × (head.marks < 2 ^ 32) }
    ensures { result ≡ jump_in octets.now (note_by head marks.now) sample }
{
    if head.samples <= sample {
        return Err(Refusal::Beyond);
    }
    if head.marks < 1 {
        return Err(Refusal::Bad);
    }
    let k = crate::seeking::last_mark(marks, head.marks, sample);
    let at = marks[2 * k] as usize;
    let before = marks[2 * k + 1] as usize;
    from_mark(octets, head.law, k, at, before, sample)
}

// In the greeting at place i of a table, with its note.
fn at_row(block: &[u8], table: &[u32], size: usize, i: usize, sample: usize) -> Answer
    requires { Noted size table.now × (size ≤ length block.now) × (size ≤ largest_block) × (i < get_or table.now 0 0) }
    ensures { result ≡ jump_in (greeting block.now (nth i (rows_of table.now)))
        (nth_note i (notes_of table.now)) sample }
{
    let r = store_rows::rows::row_at(table, 1 + store_rows::rows::ROW_CELLS * i);
    let head = store_notes::head_at(table, i);
    let first = store_notes::FIRST_MARK + 2 * store_notes::marks_before(table, i);
    let start = r.start;
    let end = start + r.octets;
    within(&block[start..end], head, &table[first..], sample)
}

// "Refusals, in order: NUMBER, ABSENT, BEYOND".
fn among(block: &[u8], table: &[u32], size: usize, number: usize, sample: usize) -> Answer
    requires { Noted size table.now × (size ≤ length block.now) × (size ≤ largest_block) }
    ensures { result ≡ jump_among block.now (rows_of table.now) (notes_of table.now) number sample }
{
    if !store_rows::rows::is_number(number) {
        return Err(Refusal::Number);
    }
    let n = table[0] as usize;
    match store_rows::rows::find(table, n, number) {
        None => Err(Refusal::Absent),
        Some(i) => at_row(block, table, size, i, sample),
    }
}

// "Jump to a second": TABLE, NUMBER, ABSENT, BEYOND, BAD; the frame, its octet place, the sample's place in it, and the frames read.
pub fn jump(block: &[u8], table: &[u32], number: u32, sample: u64) -> Answer
    ensures { Jump number sample block.now table.now result }
{
    let size = store_rows::rows::size_of(block.len());
    if !store_notes::sane(table, size) {
        return Err(Refusal::Table);
    }
    among(block, table, size, number as usize, sample as usize)
}
