// What a store tells of itself, nothing changed: a greeting by its number or by its place in order of start, and all greetings together.
// What each call answers stands in specs/Calls.
#![tactic(auto)]

ghost use Rattle.std.specs.Prelude.{◌≡◌, ◌≤◌, ◌<◌, max, length, get_or};
ghost use Rattle.store_rows.specs.Limits.{largest_block, most_greetings};
ghost use Rattle.store_rows.specs.Cells.{rows_of};
ghost use Rattle.store_rows.specs.Sane.{Ordered};
ghost use Rattle.store_notes.specs.Cells.{second_list, first_mark, notes_of};
ghost use Rattle.store_tell.specs.Tells.{tell_at, largest_gap, totals_of};
ghost use Rattle.store_tell.specs.Calls.{entry_in, sums_in, info_of, at_of, totals_for};

use store::Refusal;

// A greeting: its number, where it starts, its octets; its law, its samples, and how many marks it has.
#[derive(Clone, Copy)]
pub struct Entry {
    pub number: usize,
    pub start: usize,
    pub octets: usize,
    pub law: u32,
    pub samples: usize,
    pub marks: usize,
}

// All greetings: how many, the octets held, the octets free, and the largest gap.
#[derive(Clone, Copy)]
pub struct Sums {
    pub greetings: usize,
    pub held: usize,
    pub free: usize,
    pub gap: usize,
}

pub type Told = Result<Entry, Refusal>;

pub type Summed = Result<Sums, Refusal>;

// What a call tells; a refused one reports zeros.
pub fn entry_in(t: Told) -> Entry
    ensures { result ≡ entry_in t }
{
    t.unwrap_or(Entry {
        number: 0,
        start: 0,
        octets: 0,
        law: 0,
        samples: 0,
        marks: 0,
    })
}

pub fn sums_in(s: Summed) -> Sums
    ensures { result ≡ sums_in s }
{
    s.unwrap_or(Sums {
        greetings: 0,
        held: 0,
        free: 0,
        gap: 0,
    })
}

// The greeting at place i, "as they stand in the table".
fn tell(table: &[u32], i: usize) -> Entry
    requires { (i < get_or table.now 0 0) × (get_or table.now 0 0 ≤ most_greetings)
        × (get_or table.now second_list 0 ≡ get_or table.now 0 0) × (first_mark ≤ length table.now) }
    ensures { result ≡ tell_at (rows_of table.now) (notes_of table.now) i }
{
    let r = store_rows::rows::row_at(table, 1 + store_rows::rows::ROW_CELLS * i);
    let h = store_notes::head_at(table, i);
    Entry {
        number: r.number,
        start: r.start,
        octets: r.octets,
        law: h.law,
        samples: h.samples,
        marks: h.marks,
    }
}

// A greeting by its number: TABLE, NUMBER, ABSENT, as a get has them.
pub fn info(block: &[u8], table: &[u32], number: u32) -> Told
    ensures { result ≡ info_of block.now table.now number }
{
    store::get(block, table, number)?;
    let n = table[0] as usize;
    let i = store_rows::rows::find(table, n, number as usize).ok_or(Refusal::Absent)?;
    Ok(tell(table, i))
}

// A greeting by its place in order of start: TABLE, ABSENT.
pub fn at(block: &[u8], table: &[u32], index: u64) -> Told
    ensures { result ≡ at_of block.now table.now index }
{
    let size = store_rows::rows::size_of(block.len());
    if !store_notes::sane(table, size) {
        return Err(Refusal::Table);
    }
    let n = table[0] as usize;
    if n as u64 <= index {
        return Err(Refusal::Absent);
    }
    Ok(tell(table, index as usize))
}

// The largest gap: before the first greeting, between two, and behind the last.
fn largest_gap(table: &[u32], n: usize, size: usize) -> usize
    requires { (n ≡ get_or table.now 0 0) × Ordered size table.now × (size ≤ largest_block) }
    ensures { result ≡ largest_gap size (rows_of table.now) }
{
    let mut at = 0;
    let mut best = 0;
    for r in store_rows::rows::greetings(table, n) {
        best = best.max(r.start - at);
        at = r.start + r.octets;
    }
    best.max(size - at)
}

// How many, the octets held, the octets free, and the largest gap.
fn sum_up(table: &[u32], size: usize) -> Sums
    requires { Ordered size table.now × (size ≤ largest_block) }
    ensures { result ≡ totals_of size (rows_of table.now) }
{
    let n = table[0] as usize;
    let held = store_rows::rows::held(table, n, size);
    let gap = largest_gap(table, n, size);
    Sums {
        greetings: n,
        held,
        free: size - held,
        gap,
    }
}

// All greetings together: TABLE.
pub fn totals(block: &[u8], table: &[u32]) -> Summed
    ensures { result ≡ totals_for block.now table.now }
{
    let size = store_rows::rows::size_of(block.len());
    if !store_notes::sane(table, size) {
        return Err(Refusal::Table);
    }
    Ok(sum_up(table, size))
}
