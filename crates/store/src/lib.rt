// A greeting store that fills its gaps (document 02, R-6): greetings in a lent block, with a lent table; put, get and delete.
// With each greeting go its law, its samples and its marks (R-8).
// What each call answers and leaves stands in specs/Calls.
#![tactic(auto)]

ghost use Rattle.std.specs.Prelude.{◌≡◌, ◌+◌, ◌^◌, ◌≤◌, ◌<◌, length, get_or};
ghost use Rattle.rules.specs.Tools.{most_law};
ghost use Rattle.store_rows.specs.Limits.{largest_block, most_number, list_cells};
ghost use Rattle.store_rows.specs.Rows.{held as held_by};
ghost use Rattle.store_rows.specs.Cells.{rows_of};
ghost use Rattle.store_notes.specs.Sane.{Noted};
ghost use Rattle.store_notes.specs.Changed.{Taken};
ghost use Rattle.store.specs.Calls.{refusal_number, refusal-not-zero, Put, Get, Delete};
ghost use Rattle.store.specs.Looking.{look_of, Looked, long_of, PutsIn, FitsIn, PlacedAt};

use rules::Numbered;
use store_notes::Head;
use store_rows::rows::Row;

// "Refusals, in order"; TABLE (26) comes first, and ROOM (4) is saving's.
#[derive(Clone, Copy)]
pub enum Refusal {
    Room,
    Law,
    Number,
    Taken,
    Absent,
    Bad,
    Full,
    NoRoom,
    Table,
}

// The start and the octets moved, or the start and the octets; or the refusal.
pub type Answer = Result<(usize, usize), Refusal>;

// What a put goes on with: the block's size, how many greetings there are, and the number's place among them.
#[derive(Drop)]
pub struct Sought {
    pub size: usize,
    pub n: usize,
    pub i: usize,
    pub number: usize,
}

impl Numbered for Refusal {
    ghost number = { refusal_number };

    ghost never_zero = { refusal-not-zero };

    fn number(self) -> u32 {
        match self {
            Refusal::Room => 4,
            Refusal::Law => 12,
            Refusal::Number => 15,
            Refusal::Taken => 16,
            Refusal::Absent => 17,
            Refusal::Bad => 18,
            Refusal::Full => 19,
            Refusal::NoRoom => 20,
            Refusal::Table => 26,
        }
    }
}

// What all calls judge after the table: NUMBER. Then how many greetings there are, and the number's place among them, or the place past
// them.
fn judge(table: &[u32], size: usize, number: usize) -> Result<(usize, usize), Refusal>
    requires { Noted size table.now }
    ensures { result ≡ look_of table.now number }
{
    if !store_rows::rows::is_number(number) {
        return Err(Refusal::Number);
    }
    let n = table[0] as usize;
    Ok((n, store_rows::rows::find(table, n, number).unwrap_or(n)))
}

// A greeting written at a place, with its row, i rows standing before it.
fn place(
    block: &mut [u8],
    table: &mut [u32],
    n: usize,
    i: usize,
    at: usize,
    number: usize,
    octets: &[u8],
)
    requires n_value { (n ≡ get_or table.old 0 0) × (n ≤ 31) × (i ≤ n) × (list_cells ≤ length table.old) × (number < 2 ^ 32) }
    requires octets_in_bounds { (at + length octets.now ≤ length block.old) × (at + length octets.now < 2 ^ 32) }
    ensures { PlacedAt i at number octets.now block.old table.old
        block.new table.new }
{
    rules::copy_over(&mut block[at..at + octets.len()], octets);
    store_rows::placing::insert(
        table,
        n,
        i,
        Row {
            number,
            start: at,
            octets: octets.len(),
        },
    );
}

// "A put takes the lowest gap that holds it; if none does, all greetings first close up from 0 in their order."
// Behind them there is room then. Its note stands among the notes where its row stands among the rows.
fn fit(
    block: &mut [u8],
    table: &mut [u32],
    sought: Sought,
    behind: usize,
    octets: &[u8],
    head: Head,
    marks: &[u32],
) -> Answer
    requires n_value { (sought.n ≡ get_or table.old 0 0) × (sought.n ≤ 31) × (sought.number < 2 ^ 32)
        × (sought.size ≤ length block.old) × (sought.size ≤ largest_block) }
    requires noted { Noted sought.size table.old
        × (behind ≡ held_by (rows_of table.old)) × (behind + length octets.now ≤ sought.size) }
    requires taken { Taken head octets.now marks.now }
    ensures { FitsIn sought.size head.law sought.number octets.now block.old table.old
        block.new table.new result }
{
    match store_rows::rows::lowest_gap(table, sought.n, sought.size, octets.len()) {
        Some((i, at)) => {
            place(block, table, sought.n, i, at, sought.number, octets);
            store_notes::put_taken(table, sought.n, i, head, octets, marks);
            Ok((at, 0))
        }
        None => {
            let moved = store_rows::closing::close_up(block, table, sought.size);
            place(
                block,
                table,
                sought.n,
                sought.n,
                behind,
                sought.number,
                octets,
            );
            store_notes::put_taken(table, sought.n, sought.n, head, octets, marks);
            Ok((behind, moved))
        }
    }
}

// A greeting longer than the block: BAD, FULL or NOROOM. Its marks are not kept.
fn over_long(n: usize, octets: &[u8], law: u32) -> Refusal
    ensures { result ≡ long_of n law octets.now }
{
    if store_greeting::greetings::is_bad(octets, law) {
        return Refusal::Bad;
    }
    if store_rows::rows::MOST_GREETINGS <= n {
        return Refusal::Full;
    }
    Refusal::NoRoom
}

// What is left to judge of a greeting that the walk accepts: FULL, NOROOM.
fn put_sound(
    block: &mut [u8],
    table: &mut [u32],
    sought: Sought,
    octets: &[u8],
    head: Head,
    marks: &[u32],
) -> Answer
    requires looked { Looked sought.size table.old sought.number sought.n sought.i × (sought.n ≤ sought.i) }
    requires size_in_bounds { (sought.size ≤ length block.old) × (sought.size ≤ largest_block) × (sought.number ≤ most_number)
        × (length octets.now ≤ sought.size) }
    requires taken { Taken head octets.now marks.now }
    ensures { PutsIn sought.size head.law sought.number octets.now block.old table.old
        block.new table.new result }
{
    if store_rows::rows::MOST_GREETINGS <= sought.n {
        return Err(Refusal::Full);
    }
    let behind = store_rows::rows::held(table, sought.n, sought.size);
    if sought.size - behind < octets.len() {
        return Err(Refusal::NoRoom);
    }
    fit(block, table, sought, behind, octets, head, marks)
}

// What is left to judge of a put: TAKEN, BAD, FULL, NOROOM. The walk is made once, and its marks are taken as it goes; a greeting that has
// more marks than stand here is walked once more where it is put.
fn put_among(block: &mut [u8], table: &mut [u32], sought: Sought, law: u32, octets: &[u8]) -> Answer
    requires looked { Looked sought.size table.old sought.number sought.n sought.i }
    requires size_in_bounds { (sought.size ≤ length block.old) × (sought.size ≤ largest_block) × (law ≤ most_law)
        × (sought.number ≤ most_number) }
    ensures { PutsIn sought.size law sought.number octets.now block.old table.old
        block.new table.new result }
{
    if sought.i < sought.n {
        return Err(Refusal::Taken);
    }
    if sought.size < octets.len() {
        return Err(over_long(sought.n, octets, law));
    }
    let mut marks = [0u32; store_greeting::marks::KEPT_APART];
    match store_greeting::marks::take(octets, law, &mut marks) {
        None => Err(Refusal::Bad),
        Some(taken) => put_sound(
            block,
            table,
            sought,
            octets,
            Head {
                law,
                samples: taken.samples,
                marks: taken.marks,
            },
            &marks,
        ),
    }
}

// "Put": TABLE, LAW, NUMBER, TAKEN, BAD, FULL, NOROOM; the start, and the octets moved.
pub fn put(block: &mut [u8], table: &mut [u32], law: u32, number: u32, octets: &[u8]) -> Answer
    ensures { Put law number octets.now block.old table.old
        block.new table.new result }
{
    let size = store_rows::rows::size_of(block.len());
    if !store_notes::sane(table, size) {
        return Err(Refusal::Table);
    }
    if rules::MOST_LAW < law {
        return Err(Refusal::Law);
    }
    let number = number as usize;
    let (n, i) = judge(table, size, number)?;
    put_among(block, table, Sought { size, n, i, number }, law, octets)
}

// "Get": TABLE, NUMBER, ABSENT; the start and the octets.
pub fn get(block: &[u8], table: &[u32], number: u32) -> Answer
    ensures { Get number block.now table.now result }
{
    let size = store_rows::rows::size_of(block.len());
    if !store_notes::sane(table, size) {
        return Err(Refusal::Table);
    }
    let (n, i) = judge(table, size, number as usize)?;
    if n <= i {
        return Err(Refusal::Absent);
    }
    let r = store_rows::rows::row_at(table, 1 + store_rows::rows::ROW_CELLS * i);
    Ok((r.start, r.octets))
}

// "Delete": TABLE, NUMBER, ABSENT. Its note goes with it, and the marks behind close up.
pub fn delete(block: &[u8], table: &mut [u32], number: u32) -> Answer
    ensures { Delete number block.now table.old table.new result }
{
    let size = store_rows::rows::size_of(block.len());
    if !store_notes::sane(table, size) {
        return Err(Refusal::Table);
    }
    let (n, i) = judge(table, size, number as usize)?;
    if n <= i {
        return Err(Refusal::Absent);
    }
    store_rows::placing::remove(table, n, i);
    store_notes::drop_note(table, n, i);
    Ok((0, 0))
}
