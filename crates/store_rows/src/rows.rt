// The greetings of a store, as a list that lies in a lent table (document 02, R-6): found, counted and judged.
// What the cells mean stands in specs/Cells.
ghost use Rattle.std.specs.Prelude.{◌≡◌, ◌+◌, ◌*◌, ◌-◌, ◌^◌, ◌≤◌, ◌<◌, min, length, get_or, unwrap_or, IfSome};
ghost use Rattle.std.specs.Iterator.{YieldsFirst, item_count};
ghost use Rattle.store_rows.specs.Limits.{is_number as in_range, largest_block, row_cells, list_cells};
ghost use Rattle.store_rows.specs.Rows.{held as held_by};
ghost use Rattle.store_rows.specs.Finding.{find_from, place_of, lowest_gap};
ghost use Rattle.store_rows.specs.Cells.{row_at, rows_in, rows_at, rows_of};
ghost use Rattle.store_rows.specs.Sane.{rising, numbered, sane_of, Ordered};

// The greatest size of a block: "Walks take up to 1,048,576 octets and a store block may be that large" (R-11).
pub const LARGEST_BLOCK: usize = 1048576;

// "up to 32, each with a number from 1 to 65,535".
pub const MOST_GREETINGS: usize = 32;

pub const MOST_NUMBER: usize = 65535;

// How a list of greetings lies in a table: three cells a row, and so many for all, how many there are and 32 rows.
pub const ROW_CELLS: usize = 3;

pub const LIST_CELLS: usize = 97;

// A greeting: its number, where it starts in the block, and its octets.
#[derive(Clone, Copy)]
pub struct Row {
    pub number: usize,
    pub start: usize,
    pub octets: usize,
}

// The cells of rows that are still to come, three a row.
#[derive(Clone, Copy)]
pub struct Rows<'a> {
    cells: &'a [u32],
}

impl<'a> Iterator for Rows<'a> {
    type Item = Row;

    ghost next_gives = { YieldsFirst (λ s. rows_in s.cells.now) };

    ghost remaining = { item_count (λ s. rows_in s.cells.now) };

    fn next(&mut self) -> Option<Row> {
        let (row, rest) = self.cells.split_first_chunk::<3>()?;
        self.cells = rest;
        Some(Row {
            number: row[0] as usize,
            start: row[1] as usize,
            octets: row[2] as usize,
        })
    }
}

// The first n greetings of a table.
pub fn greetings(table: &[u32], n: usize) -> Rows<'_>
    requires { (n ≤ 32) × (list_cells ≤ length table.now) }
    ensures { rows_in result.cells.now ≡ rows_at table.now n 1 }
{
    Rows {
        cells: &table[1..1 + ROW_CELLS * n],
    }
}

// The size of a lent block; octets past it are never touched.
pub fn size_of(len: usize) -> usize
    ensures { result ≡ min len largest_block }
{
    len.min(LARGEST_BLOCK)
}

// "a number from 1 to 65,535"
pub fn is_number(x: usize) -> bool
    ensures { result ≡ in_range x }
{
    (1..=MOST_NUMBER).contains(&x)
}

// The row at a place of the table.
pub fn row_at(table: &[u32], k: usize) -> Row
    requires { k + row_cells ≤ length table.now }
    ensures { (result ≡ row_at table.now k) × (result.start < 2 ^ 32) × (result.octets < 2 ^ 32) }
{
    Row {
        number: table[k] as usize,
        start: table[k + 1] as usize,
        octets: table[k + 2] as usize,
    }
}

// The place of a number among the greetings from `from` on.
pub fn find_from(table: &[u32], n: usize, from: usize, number: usize) -> Option<usize>
    requires { (from ≤ n) × (n ≤ 32) × (list_cells ≤ length table.now) }
    ensures { (unwrap_or result n ≡ find_from number from (rows_at table.now (n - from) (1 + row_cells * from)))
        × IfSome result (λ i. i < n) }
{
    let mut behind = Rows {
        cells: &table[1 + ROW_CELLS * from..1 + ROW_CELLS * n],
    };
    let k = behind.position(|r| r.number == number)?;
    Some(from + k)
}

// The place of a number among the greetings.
pub fn find(table: &[u32], n: usize, number: usize) -> Option<usize>
    requires { (n ≤ 32) × (list_cells ≤ length table.now) }
    ensures { result ≡ place_of number (rows_at table.now n 1) }
{
    find_from(table, n, 0, number)
}

// Greetings of `least` octets or more, in order of start, apart, and inside the block.
pub fn rises(table: &[u32], n: usize, least: usize, size: usize) -> bool
    requires { (n ≤ 32) × (list_cells ≤ length table.now) }
    ensures { result ≡ rising least 0 size (rows_at table.now n 1) }
{
    let mut end = 0;
    for r in greetings(table, n) {
        if r.start < end || r.octets < least || size < r.octets || size - r.octets < r.start {
            return false;
        }
        end = r.start + r.octets;
    }
    true
}

// Numbers from 1 to 65,535, each used once.
pub fn distinct(table: &[u32], n: usize) -> bool
    requires { (n ≤ 32) × (list_cells ≤ length table.now) }
    ensures { result ≡ numbered (rows_at table.now n 1) }
{
    let mut rest = greetings(table, n);
    while let Some(r) = rest.next() {
        let mut others = rest;
        if !is_number(r.number) || others.any(|s| s.number == r.number) {
            return false;
        }
    }
    true
}

// A table that calls leave, for a block of a size.
pub fn sane(table: &[u32], size: usize) -> bool
    ensures { result ≡ sane_of size table.now }
{
    if table.len() < LIST_CELLS {
        return false;
    }
    let n = table[0] as usize;
    n <= MOST_GREETINGS && rises(table, n, 1, size) && distinct(table, n)
}

// The octets held.
pub fn held(table: &[u32], n: usize, size: usize) -> usize
    requires { (n ≡ get_or table.now 0 0) × Ordered size table.now × (size < 2 ^ 32) }
    ensures { (result ≡ held_by (rows_of table.now)) × (result ≤ size) }
{
    greetings(table, n).map(|r| r.octets).sum()
}

// "the lowest gap that holds it": how many greetings lie below it, and where it starts.
pub fn lowest_gap(table: &[u32], n: usize, size: usize, want: usize) -> Option<(usize, usize)>
    requires { (n ≡ get_or table.now 0 0) × Ordered size table.now × (size < 2 ^ 32) × (want ≤ size) }
    ensures { result ≡ lowest_gap want size (rows_of table.now) }
{
    let mut at = 0;
    for (i, r) in greetings(table, n).enumerate() {
        if at + want <= r.start {
            return Some((i, at));
        }
        at = r.start + r.octets;
    }
    if at + want <= size {
        Some((n, at))
    } else {
        None
    }
}
