// The notes of a store's greetings (document 02, R-8), in a lent table: judged, put in and taken out.
// What the cells mean stands in specs/Cells.
#![tactic(auto)]

ghost use Rattle.std.specs.Prelude.{◌≡◌, ◌+◌, ◌*◌, ◌^◌, ◌≤◌, ◌<◌, length, get_or, drop};
ghost use Rattle.store_rows.specs.Limits.{most_greetings};
ghost use Rattle.store_rows.specs.Cells.{rows_at};
ghost use Rattle.store_greeting.specs.Marks.{note_of, mark_cells};
ghost use Rattle.store_notes.specs.Cells.{second_list, first_mark, heads_of, head_at, marks_held};
ghost use Rattle.store_notes.specs.Sane.{store_cells, matched, sane_store};
ghost use Rattle.store_notes.specs.Changed.{opened, shut, Heard, Taken, Opens, WithNote, WithoutNote};

use store_rows::rows::Row;

// Where the second list begins, and where the marks do.
pub const SECOND_LIST: usize = store_rows::rows::LIST_CELLS;

pub const FIRST_MARK: usize = SECOND_LIST + store_rows::rows::LIST_CELLS;

// What a greeting carries: its law and samples, and how many marks it has.
#[derive(Clone, Copy)]
pub struct Head {
    pub law: u32,
    pub samples: usize,
    pub marks: usize,
}

// How many cells a table needs for a block of a size: both lists, and the marks of 32 greetings that fill it.
pub fn store_cells(size: usize) -> usize
    ensures { result ≡ store_cells size }
{
    let size = store_rows::rows::size_of(size);
    FIRST_MARK + 2 * (size / store_greeting::marks::FRAMES_APART + store_rows::rows::MOST_GREETINGS)
}

// The head at a place of the second list.
pub fn head_at(table: &[u32], i: usize) -> Head
    requires { (i < most_greetings) × (first_mark ≤ length table.now) }
    ensures { (result ≡ head_at table.now i) × (result.samples < 2 ^ 32) × (result.marks < 2 ^ 32) }
{
    let k = SECOND_LIST + 1 + store_rows::rows::ROW_CELLS * i;
    let r = store_rows::rows::row_at(table, k);
    Head {
        law: table[k],
        samples: r.start,
        marks: r.octets,
    }
}

// "A law above 1 .. is TABLE"; of each greeting no more marks than its octets can have.
fn fits(table: &[u32], n: usize) -> bool
    requires { (n ≤ most_greetings) × (first_mark ≤ length table.now) }
    ensures { result ≡ matched (rows_at table.now n 1) (rows_at (drop second_list table.now) n 1) }
{
    for (i, r) in store_rows::rows::greetings(table, n).enumerate() {
        let h = head_at(table, i);
        let most = r.octets / store_greeting::marks::FRAMES_APART + 1;
        if rules::MOST_LAW < h.law || most < h.marks {
            return false;
        }
    }
    true
}

// A table that calls leave, for a block of a size.
pub fn sane(table: &[u32], size: usize) -> bool
    ensures { result ≡ sane_store size table.now }
{
    if table.len() < store_cells(size) || !store_rows::rows::sane(table, size) {
        return false;
    }
    table[SECOND_LIST] == table[0] && fits(table, table[0] as usize)
}

// How many marks the first i greetings have: they stand third in their rows, as octets do.
pub fn marks_before(table: &[u32], i: usize) -> usize
    requires { (i ≤ most_greetings) × (first_mark ≤ length table.now) }
    ensures { (result ≡ marks_held (rows_at (drop second_list table.now) i 1)) × (result ≤ i * 2 ^ 32) }
{
    store_rows::rows::greetings(&table[SECOND_LIST..], i)
        .map(|h| h.octets)
        .sum()
}

// Cells put in at a place.
fn open_up(cells: &mut [u32], at: usize, used: usize, new: &[u32])
    requires { (at ≤ used) × (used + length new.now ≤ length cells.old) }
    ensures { cells.new ≡ opened cells.old at used new.now }
{
    cells.copy_within(at..used, at + new.len());
    rules::copy_over(&mut cells[at..at + new.len()], new);
}

// Cells taken out from a place on.
fn shut_over(cells: &mut [u32], at: usize, used: usize, by: usize)
    requires { (at + by ≤ used) × (used ≤ length cells.old) }
    ensures { cells.new ≡ shut cells.old at used by }
{
    cells.copy_within(at + by..used, at);
}

// Cells put in for a greeting's marks, which are taken as its walk goes.
fn open_walked(cells: &mut [u32], at: usize, used: usize, octets: &[u8], head: Head)
    requires { (at ≤ used) × (used + 2 * head.marks ≤ length cells.old) × Heard head octets.now }
    ensures { cells.new
        ≡ opened cells.old at used (mark_cells (note_of head.law octets.now).marks) }
{
    let by = 2 * head.marks;
    cells.copy_within(at..used, at + by);
    store_greeting::marks::take(octets, head.law, &mut cells[at..at + by]);
}

// Cells put in for a greeting's marks: those that were taken, where they had room; else it is walked once more.
fn open_taken(cells: &mut [u32], at: usize, used: usize, octets: &[u8], head: Head, marks: &[u32])
    requires { (at ≤ used) × (used + 2 * head.marks ≤ length cells.old) × Taken head octets.now marks.now }
    ensures { cells.new
        ≡ opened cells.old at used (mark_cells (note_of head.law octets.now).marks) }
{
    let by = 2 * head.marks;
    if by <= marks.len() {
        open_up(cells, at, used, &marks[..by]);
    } else {
        open_walked(cells, at, used, octets, head);
    }
}

// The note of a greeting put in, i notes standing before it: what was taken of its walk.
pub fn put_taken(table: &mut [u32], n: usize, i: usize, head: Head, octets: &[u8], marks: &[u32])
    requires { Opens table.old n i head.marks × Taken head octets.now marks.now }
    ensures { WithNote i (note_of head.law octets.now) table.old table.new }
{
    let at = 2 * marks_before(table, i);
    let used = 2 * marks_before(table, n);
    store_rows::placing::insert(
        &mut table[SECOND_LIST..],
        n,
        i,
        Row {
            number: head.law as usize,
            start: head.samples,
            octets: head.marks,
        },
    );
    open_taken(&mut table[FIRST_MARK..], at, used, octets, head, marks);
}

// The note at i taken out; the marks behind it close up.
pub fn drop_note(table: &mut [u32], n: usize, i: usize)
    requires n_value { (n ≡ get_or table.old second_list 0) × (n ≤ most_greetings) × (i < n) }
    requires table_in_bounds { first_mark + 2 * marks_held (heads_of table.old) ≤ length table.old }
    ensures { WithoutNote i table.old table.new }
{
    let at = 2 * marks_before(table, i);
    let used = 2 * marks_before(table, n);
    let h = head_at(table, i);
    let by = 2 * h.marks;
    store_rows::placing::remove(&mut table[SECOND_LIST..], n, i);
    shut_over(&mut table[FIRST_MARK..], at, used, by);
}
