// Closing up (document 02, R-6) as moves of one greeting each, so that a cut of power finds every greeting whole: the next move, a greeting
// moved, a greeting renumbered, and what a put would answer. What each call answers and leaves stands in specs/Calls.
ghost use Rattle.std.specs.Prelude.{◌≡◌, ◌+◌, ◌≤◌, ◌<◌, length, get_or};
ghost use Rattle.store_rows.specs.Limits.{largest_block};
ghost use Rattle.store_rows.specs.Rows.{held as held_by};
ghost use Rattle.store_rows.specs.Finding.{lowest_gap};
ghost use Rattle.store_rows.specs.Cells.{rows_at, rows_of};
ghost use Rattle.store_rows.specs.Sane.{Ordered};
ghost use Rattle.store_notes.specs.Sane.{Noted};
ghost use Rattle.store_rows.specs.Closing.{moved_from};
ghost use Rattle.store_moves.specs.Next.{next_from, next_of, hop_of, moved_in, renumber_in};
ghost use Rattle.store_moves.specs.Calls.{unmoved_number, unmoved-not-zero, told_hop, next_told, Changes, Moved, Renumber, Try};
ghost use Rattle.store_moves.specs.Steps.{Within, gap_tells, tried_in};

use rules::Numbered;
use store::{Answer, Refusal};

// A move: the greeting's number, where its octets lie, where they go, and how many they are.
#[derive(Clone, Copy)]
pub struct Hop {
    pub number: usize,
    pub from: usize,
    pub to: usize,
    pub octets: usize,
}

pub type Told = Result<Hop, Refusal>;

// Why a call changes nothing: MOVE is NotNext.
#[derive(Clone, Copy)]
pub enum Unmoved {
    NotNext,
    Of(Refusal),
}

impl Numbered for Unmoved {
    ghost number = { unmoved_number };

    ghost never_zero = { unmoved-not-zero };

    fn number(self) -> u32 {
        match self {
            Unmoved::NotNext => crate::steps::MOVE,
            Unmoved::Of(why) => why.number(),
        }
    }
}

pub type Change = Result<(), Unmoved>;

fn no_hop() -> Hop
    ensures { result ≡ record { number = 0; from = 0; to = 0; octets = 0 } }
{
    Hop {
        number: 0,
        from: 0,
        to: 0,
        octets: 0,
    }
}

// The move that a call tells; a refused one tells zeros.
pub fn told_hop(t: Told) -> Hop
    ensures { result ≡ told_hop t }
{
    t.unwrap_or(no_hop())
}

// The first greeting, "in order of start, that is not where closing up puts it": how many stand before it, and where it goes.
// None where all are there.
fn next_move(table: &[u32], n: usize) -> Option<(usize, usize)>
    requires { (n ≤ 32) × (97 ≤ length table.now) }
    ensures { (result ≡ next_from 0 0 (rows_at table.now n 1)) × Within table.now n result }
{
    let mut at = 0;
    for (i, r) in store_rows::rows::greetings(table, n).enumerate() {
        if r.start != at {
            return Some((i, at));
        }
        at = r.start + r.octets;
    }
    None
}

// The next move, with its greeting's numbers.
fn hop_in(table: &[u32], size: usize) -> Hop
    requires { Ordered size table.now }
    ensures { result ≡ hop_of (rows_of table.now) (next_of (rows_of table.now)) }
{
    let n = table[0] as usize;
    match next_move(table, n) {
        None => no_hop(),
        Some((i, at)) => {
            let r = store_rows::rows::row_at(table, 1 + 3 * i);
            Hop {
                number: r.number,
                from: r.start,
                to: at,
                octets: r.octets,
            }
        }
    }
}

// "the next move of closing up": TABLE; zeros where all are closed up.
pub fn next(block: &[u8], table: &[u32]) -> Told
    ensures { result ≡ next_told block.now table.now }
{
    let size = store_rows::rows::size_of(block.len());
    if !store_notes::sane(table, size) {
        return Err(Refusal::Table);
    }
    Ok(hop_in(table, size))
}

// NUMBER, ABSENT, MOVE; else the greeting's start is told anew.
fn moved_in(table: &mut [u32], size: usize, x: usize, to: u64) -> Change
    requires { Noted size table.old × (size ≤ largest_block) }
    ensures { Changes (moved_in (rows_of table.old) x to) table.old table.new result }
{
    if !store_rows::rows::is_number(x) {
        return Err(Unmoved::Of(Refusal::Number));
    }
    let n = table[0] as usize;
    if store_rows::rows::find(table, n, x).is_none() {
        return Err(Unmoved::Of(Refusal::Absent));
    }
    match next_move(table, n) {
        None => Err(Unmoved::NotNext),
        Some((i, at)) => {
            let k = 1 + 3 * i;
            let r = store_rows::rows::row_at(table, k);
            if r.number != x {
                return Err(Unmoved::NotNext);
            }
            if at as u64 != to {
                return Err(Unmoved::NotNext);
            }
            table[k + 1] = at as u32;
            Ok(())
        }
    }
}

// "the table with that greeting at `to`": TABLE first.
pub fn moved(block: &[u8], table: &mut [u32], number: u32, to: u64) -> Change
    ensures { Moved number to block.now table.old table.new result }
{
    let size = store_rows::rows::size_of(block.len());
    if !store_notes::sane(table, size) {
        return Err(Unmoved::Of(Refusal::Table));
    }
    moved_in(table, size, number as usize, to)
}

// NUMBER (either), ABSENT, TAKEN; else the greeting's number is told anew.
fn renumber_in(table: &mut [u32], size: usize, x: usize, to: u32) -> Change
    requires { Noted size table.old }
    ensures { Changes (renumber_in (rows_of table.old) x to) table.old table.new result }
{
    let y = to as usize;
    if !store_rows::rows::is_number(x) || !store_rows::rows::is_number(y) {
        return Err(Unmoved::Of(Refusal::Number));
    }
    let n = table[0] as usize;
    match store_rows::rows::find(table, n, x) {
        None => Err(Unmoved::Of(Refusal::Absent)),
        Some(i) => {
            if store_rows::rows::find(table, n, y).is_some() {
                return Err(Unmoved::Of(Refusal::Taken));
            }
            table[1 + 3 * i] = to;
            Ok(())
        }
    }
}

// "the greeting `number` has the number `to`": TABLE first.
pub fn renumber(block: &[u8], table: &mut [u32], number: u32, to: u32) -> Change
    ensures { Renumber number to block.now table.old table.new result }
{
    let size = store_rows::rows::size_of(block.len());
    if !store_notes::sane(table, size) {
        return Err(Unmoved::Of(Refusal::Table));
    }
    renumber_in(table, size, number as usize, to)
}

// "Octets moved": what closing up would report.
fn octets_moved(table: &[u32], n: usize, size: usize) -> usize
    requires { (n ≡ get_or table.now 0 0) × Ordered size table.now × (size ≤ largest_block) }
    ensures { result ≡ moved_from 0 (rows_of table.now) }
{
    let mut to = 0;
    let mut moved = 0;
    for r in store_rows::rows::greetings(table, n) {
        moved += store_rows::closing::moved_one(r.start, to, r.octets);
        to += r.octets;
    }
    moved
}

// Where a greeting that fits would be put: in the lowest gap, or behind all when they have closed up.
fn place(table: &[u32], n: usize, size: usize, want: usize, behind: usize) -> Answer
    requires { (n ≡ get_or table.now 0 0) × Ordered size table.now × (size ≤ largest_block) × (want ≤ size)
        × (behind ≡ held_by (rows_of table.now)) }
    ensures { result ≡ gap_tells (rows_of table.now) (lowest_gap want size (rows_of table.now)) }
{
    match store_rows::rows::lowest_gap(table, n, size, want) {
        Some((_, at)) => Ok((at, 0)),
        None => Ok((behind, octets_moved(table, n, size))),
    }
}

// LAW, NUMBER, TAKEN, BAD, FULL, NOROOM; the start, and the octets moved.
fn tried_in(table: &[u32], size: usize, law: u32, x: usize, octets: &[u8]) -> Answer
    requires { Noted size table.now × (size ≤ largest_block) }
    ensures { result ≡ tried_in size (rows_of table.now) law x octets.now }
{
    if rules::MOST_LAW < law {
        return Err(Refusal::Law);
    }
    if !store_rows::rows::is_number(x) {
        return Err(Refusal::Number);
    }
    let n = table[0] as usize;
    if store_rows::rows::find(table, n, x).is_some() {
        return Err(Refusal::Taken);
    }
    if store_greeting::greetings::is_bad(octets, law) {
        return Err(Refusal::Bad);
    }
    if store_rows::rows::MOST_GREETINGS <= n {
        return Err(Refusal::Full);
    }
    let behind = store_rows::rows::held(table, n, size);
    if size - behind < octets.len() {
        return Err(Refusal::NoRoom);
    }
    place(table, n, size, octets.len(), behind)
}

// What a put would answer and report: TABLE first.
pub fn try_put(block: &[u8], table: &[u32], law: u32, number: u32, octets: &[u8]) -> Answer
    ensures { Try law number octets.now block.now table.now result }
{
    let size = store_rows::rows::size_of(block.len());
    if !store_notes::sane(table, size) {
        return Err(Refusal::Table);
    }
    tried_in(table, size, law, number as usize, octets)
}
