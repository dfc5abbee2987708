// The text of a store's table (document 02, R-6, R-8 and R-11): R-6's lines read, R-8's written, read and compared, with R-11's first line.
#![tactic(auto)]

ghost use Rattle.std.specs.Prelude.{◌≡◌, ℕ, ◌+◌, ◌*◌, ◌-◌, ◌^◌, ◌≤◌, ◌<◌, ◌++◌, length, get_or};
ghost use Rattle.store_rows.specs.Limits.{largest_block, row_cells, list_cells};
ghost use Rattle.store_rows.specs.Rows.{row_of};
ghost use Rattle.store_rows.specs.Cells.{row_at};
ghost use Rattle.text_keyvalue.specs.Reading.{as_read, capped, most};
ghost use Rattle.text_lines.specs.Puts.{Puts};
ghost use Rattle.store_notes.specs.Cells.{marks_in};
ghost use Rattle.store_text.specs.Table.{row, table_in, row_text};
ghost use Rattle.store_text.specs.Noted.{mark_line, mark_lines, listed, listed_at, mark_text, marks_text, note_text, listed_text};
ghost use Rattle.store_text.specs.Form.{form_of, form_by};
ghost use Rattle.store_text.specs.Fills.{as_row, PutsRow, Fills, FillsNoted};
ghost use Rattle.store_text.specs.Passing.{headed, noted, head_in, as_head, number_then, held_mark, as_mark};
ghost use Rattle.store_text.specs.Passing.{next_of, mark_is, no_mark, marks_are, samples_is};
ghost use Rattle.store_text.specs.Held.{mark_at, note_at, held_in, held_of, NoteIn, AllIn, TextIn};

// A greeting's lines: its number, start and octets.
#[derive(Clone, Copy)]
pub struct Line {
    pub number: u32,
    pub start: u32,
    pub octets: u32,
}

// Those and the law's line.
#[derive(Clone, Copy)]
pub struct Head {
    pub line: Line,
    pub law: u32,
}

// A mark's line: its octets and samples.
#[derive(Clone, Copy)]
pub struct Marked {
    pub octets: u32,
    pub samples: u32,
}

// "without it, a start or octet count above 65,535 is TABLE"; with it, any that a block has may stand there.
pub const MOST_PLACE: u32 = 65535;

// Where a text's greetings begin, and the greatest start or count of octets that its lines may say.
// Two numbers that travel together, and no switch.
#[derive(Clone, Copy)]
pub struct Form {
    pub from: usize,
    pub most: u32,
}

// "The new reader takes tables with and without it": the first line `form=2`.
pub fn form_of(text: &[u8]) -> Form
    ensures { result ≡ form_of text.now }
{
    if text_keyvalue::has_word(text, 0, b"form=2\n") {
        Form {
            from: 7,
            most: store_rows::rows::LARGEST_BLOCK as u32,
        }
    } else {
        Form {
            from: 0,
            most: MOST_PLACE,
        }
    }
}

// "for each greeting `prompt`, `start`, `octets`", and the next place; None where the lines are not of this form.
fn line_of(text: &[u8], at: usize, most: u32) -> Option<(Line, usize)>
    requires { most ≤ largest_block }
    ensures { as_row result ≡ row most text.now at }
{
    let most_number = store_rows::rows::MOST_NUMBER as u32;
    let (number, a) = text_keyvalue::ranged_line(text, at, b"prompt=", 1, most_number)?;
    let (start, b) = text_keyvalue::ranged_line(text, a, b"start=", 0, most)?;
    let (octets, c) = text_keyvalue::ranged_line(text, b, b"octets=", 0, most)?;
    Some((
        Line {
            number,
            start,
            octets,
        },
        c,
    ))
}

// Three cells from a place on.
fn put_cells(cells: &mut [u32], k: usize, line: Line)
    requires { k + row_cells ≤ length cells.old }
    ensures { PutsRow (row_of line.number line.start line.octets) k cells.old cells.new }
{
    cells[k] = line.number;
    cells[k + 1] = line.start;
    cells[k + 2] = line.octets;
}

// The greetings that a text lists, into a lent table, and how many they are; "more than 32 greetings" are none. What is refused leaves it
// in any state.
// The loop goes on where a greeting's lines ended, and counts no index of the text.
pub fn read_rows(text: &[u8], cells: &mut [u32]) -> Option<usize>
    requires { list_cells ≤ length cells.old }
    ensures { Fills (table_in text.now) cells.old cells.new result }
{
    let mut k = 0;
    let mut at = 0;
    while at < text.len() {
        if k == store_rows::rows::MOST_GREETINGS {
            return None;
        }
        let (line, next) = line_of(text, at, MOST_PLACE)?;
        put_cells(cells, 1 + store_rows::rows::ROW_CELLS * k, line);
        k += 1;
        at = next;
    }
    cells[0] = k as u32;
    Some(k)
}

// "prompt", "start", "octets", and "law": what of a greeting's lines the first pass keeps. "A law above 1 .. is TABLE".
pub fn head_at(text: &[u8], at: usize, most: u32) -> Option<(Head, usize)>
    requires { most ≤ largest_block }
    ensures { as_head result ≡ headed most text.now at }
{
    let (line, a) = line_of(text, at, most)?;
    let (law, b) = text_keyvalue::ranged_line(text, a, b"law=", 0, 1)?;
    Some((Head { line, law }, b))
}

// A number, and a word after it.
fn number_then(text: &[u8], at: usize, word: &[u8]) -> Option<(u32, usize)>
    ensures { as_read result ≡ capped (number_then word.now text.now at) }
{
    let (n, end) = text_keyvalue::number_at(text, at)?;
    if text_keyvalue::has_word(text, end, word) {
        Some((n, end + word.len()))
    } else {
        None
    }
}

// "one `mark` per mark, as octets, a comma and samples"; numbers of any number of digits.
fn mark_at(text: &[u8], at: usize) -> Option<(Marked, usize)>
    ensures { as_mark result ≡ held_mark (mark_line text.now at) }
{
    if !text_keyvalue::has_word(text, at, b"mark=") {
        return None;
    }
    let (octets, a) = number_then(text, at + 5, b",")?;
    let (samples, b) = number_then(text, a, b"\n")?;
    Some((Marked { octets, samples }, b))
}

// Past a greeting's marks, as many as there are.
// The loop goes on where a line ended, and counts no index.
fn marks_past(text: &[u8], at: usize) -> Option<usize>
    ensures { result ≡ next_of (mark_lines text.now at) }
{
    let mut i = at;
    while text_keyvalue::has_word(text, i, b"mark=") {
        let (_, next) = mark_at(text, i)?;
        i = next;
    }
    Some(i)
}

// Past a greeting's samples and marks: what they say is judged when the whole table is read.
fn note_past(text: &[u8], at: usize, law: u32) -> Option<usize>
    ensures { result ≡ next_of (noted law text.now at) }
{
    let (_, a) = text_keyvalue::line_at(text, at, b"samples=")?;
    marks_past(text, a)
}

// A greeting's lines, of which its row and its law are kept.
fn listed_at(text: &[u8], at: usize, most: u32) -> Option<(Head, usize)>
    requires { most ≤ largest_block }
    ensures { as_head result ≡ head_in (listed most text.now at) }
{
    let (head, a) = head_at(text, at, most)?;
    let b = note_past(text, a, head.law)?;
    Some((head, b))
}

// The greetings that a text of R-8's lines lists, in a form, into a lent table, and their laws. What is refused leaves them in any state.
// Apart from read_rows: a greeting's lines are others there (specs Table and Noted), and no laws are kept.
// The loop goes on where a greeting's lines ended, as there.
pub fn read_noted(text: &[u8], form: Form, cells: &mut [u32], laws: &mut [u32]) -> Option<usize>
    requires { (form.most ≤ largest_block) × (list_cells ≤ length cells.old) × (32 ≤ length laws.old) }
    ensures { FillsNoted (listed_at form.most form.from text.now) cells.old cells.new
        laws.old laws.new result }
{
    let mut k = 0;
    let mut at = form.from;
    while at < text.len() {
        if k == store_rows::rows::MOST_GREETINGS {
            return None;
        }
        let (head, next) = listed_at(text, at, form.most)?;
        put_cells(cells, 1 + store_rows::rows::ROW_CELLS * k, head.line);
        laws[k] = head.law;
        k += 1;
        at = next;
    }
    cells[0] = k as u32;
    Some(k)
}

// The mark of a text beside a given one; the next place where they are the same. 4,294,967,295 would stand for more.
pub fn mark_is(text: &[u8], at: usize, octets: usize, samples: usize) -> Option<usize>
    requires { (octets < most) × (samples < most) }
    ensures { result ≡ next_of (mark_is octets samples text.now at) }
{
    let (mark, next) = mark_at(text, at)?;
    if mark.octets as usize == octets && mark.samples as usize == samples {
        Some(next)
    } else {
        None
    }
}

// No mark more.
pub fn no_mark(text: &[u8], at: usize) -> Option<usize>
    ensures { result ≡ next_of (no_mark text.now at) }
{
    if text_keyvalue::has_word(text, at, b"mark=") {
        None
    } else {
        Some(at)
    }
}

// The marks of a text beside m marks in cells, one by one.
pub fn marks_are(text: &[u8], at: usize, marks: &[u32], m: usize) -> Option<usize>
    requires { (2 * m ≤ length marks.now) × ((j : ℕ) → j < 2 * m → get_or marks.now j 0 < most) }
    ensures { result ≡ next_of (marks_are (marks_in m marks.now) text.now at) }
{
    let mut i = at;
    for j in 0..m {
        i = mark_is(text, i, marks[2 * j] as usize, marks[2 * j + 1] as usize)?;
    }
    no_mark(text, i)
}

// "samples .. that the walk doesn't give": those of a text beside those that are given; the place of the marks.
pub fn samples_are(text: &[u8], at: usize, samples: usize) -> Option<usize>
    requires { samples < most }
    ensures { result ≡ next_of (samples_is samples text.now at) }
{
    let (n, a) = text_keyvalue::line_at(text, at, b"samples=")?;
    if n as usize == samples { Some(a) } else { None }
}

// How many octets a greeting's three lines are.
fn row_octets(table: &[u32], k: usize) -> usize
    requires { k + row_cells ≤ length table.now }
    ensures value { result ≡ length (row_text (row_at table.now k)) }
    ensures most { result ≤ 53 }
{
    let a = text_keyvalue::line_octets(b"prompt=", table[k]);
    let b = text_keyvalue::line_octets(b"start=", table[k + 1]);
    let c = text_keyvalue::line_octets(b"octets=", table[k + 2]);
    a + b + c
}

fn put_row(table: &[u32], k: usize, out: &mut [u8], at: usize) -> usize
    requires { (k + row_cells ≤ length table.now) × (at + length (row_text (row_at table.now k)) ≤ length out.old) }
    ensures { Puts out.old at (row_text (row_at table.now k)) out.new result }
{
    let a = text_keyvalue::put_line(b"prompt=", table[k], out, at);
    let b = text_keyvalue::put_line(b"start=", table[k + 1], out, a);
    text_keyvalue::put_line(b"octets=", table[k + 2], out, b)
}

// How many octets a mark's line is.
fn mark_octets(cells: &[u32], k: usize) -> usize
    requires { k + 2 ≤ length cells.now }
    ensures value { result ≡ length (mark_text (mark_at cells.now k)) }
    ensures most { result ≤ 27 }
{
    let a = text_lines::digits(cells[k] as usize);
    let b = text_keyvalue::line_octets(b",", cells[k + 1]);
    5 + a + b
}

fn put_mark(cells: &[u32], k: usize, out: &mut [u8], at: usize) -> usize
    requires { (k + 2 ≤ length cells.now) × (at + length (mark_text (mark_at cells.now k)) ≤ length out.old) }
    ensures { Puts out.old at (mark_text (mark_at cells.now k)) out.new result }
{
    let a = text_lines::put_word(b"mark=", out, at);
    let b = text_lines::put_number(cells[k] as usize, out, a);
    text_keyvalue::put_line(b",", cells[k + 1], out, b)
}

// How many octets the lines of m marks are.
fn marks_octets(cells: &[u32], m: usize) -> usize
    requires { (2 * m ≤ length cells.now) × (m < 2 ^ 32) }
    ensures value { result ≡ length (marks_text (marks_in m cells.now)) }
    ensures most { result ≤ 27 * m }
{
    let mut sum = 0;
    for j in 0..m {
        sum += mark_octets(cells, 2 * j);
    }
    sum
}

fn put_marks(cells: &[u32], m: usize, out: &mut [u8], at: usize) -> usize
    requires { (2 * m ≤ length cells.now) × (m < 2 ^ 32) × (at + length (marks_text (marks_in m cells.now)) ≤ length out.old) }
    ensures { Puts out.old at (marks_text (marks_in m cells.now)) out.new result }
{
    let mut end = at;
    for j in 0..m {
        end = put_mark(cells, 2 * j, out, end);
    }
    end
}

// How many octets the lines of a law, samples and marks are.
fn note_octets(heads: &[u32], k: usize, cells: &[u32]) -> usize
    requires { NoteIn heads.now k cells.now }
    ensures value { result ≡ length (note_text (note_at heads.now k cells.now)) }
    ensures most { result ≤ 34 + 27 * 2 ^ 32 }
{
    let a = text_keyvalue::line_octets(b"law=", heads[k]);
    let b = text_keyvalue::line_octets(b"samples=", heads[k + 1]);
    let c = marks_octets(cells, heads[k + 2] as usize);
    a + b + c
}

fn put_note(heads: &[u32], k: usize, cells: &[u32], out: &mut [u8], at: usize) -> usize
    requires { (NoteIn heads.now k cells.now) × (at + length (note_text (note_at heads.now k cells.now)) ≤ length out.old) }
    ensures { Puts out.old at (note_text (note_at heads.now k cells.now)) out.new result }
{
    let a = text_keyvalue::put_line(b"law=", heads[k], out, at);
    let b = text_keyvalue::put_line(b"samples=", heads[k + 1], out, a);
    put_marks(cells, heads[k + 2] as usize, out, b)
}

// The same for n greetings: their rows, their second list, and their marks one after another.
fn octets_of(table: &[u32], heads: &[u32], marks: &[u32], n: usize) -> usize
    requires { AllIn table.now heads.now marks.now n }
    ensures value { result ≡ length (listed_text (held_in table.now heads.now marks.now n)) }
    ensures most { result ≤ 115964117079 * 32 }
{
    let mut sum = 0;
    let mut from = 0;
    for i in 0..n {
        let k = 1 + store_rows::rows::ROW_CELLS * i;
        let row = row_octets(table, k);
        let note = note_octets(heads, k, &marks[from..]);
        sum += row + note;
        from += 2 * heads[k + 2] as usize;
    }
    sum
}

fn put_all(
    table: &[u32],
    heads: &[u32],
    marks: &[u32],
    n: usize,
    out: &mut [u8],
    start: usize,
) -> usize
    requires { (AllIn table.now heads.now marks.now n)
        × (start + length (listed_text (held_in table.now heads.now marks.now n)) ≤ length out.old) }
    ensures { Puts out.old start
        (listed_text (held_in table.now heads.now marks.now n)) out.new result }
{
    let mut at = start;
    let mut from = 0;
    for i in 0..n {
        let k = 1 + store_rows::rows::ROW_CELLS * i;
        let a = put_row(table, k, out, at);
        at = put_note(heads, k, &marks[from..], out, a);
        from += 2 * heads[k + 2] as usize;
    }
    at
}

// "`form=2` when a start or octet count, or the block, exceeds 65,535": greetings lie inside the block, so its size tells.
fn put_form(size: usize, out: &mut [u8]) -> usize
    requires { length (form_by size) ≤ length out.old }
    ensures { Puts out.old 0 (form_by size) out.new result }
{
    if size > MOST_PLACE as usize {
        text_lines::put_word(b"form=2\n", out, 0)
    } else {
        0
    }
}

// How many octets that line is.
fn form_octets(size: usize) -> usize
    ensures { result ≡ length (form_by size) }
{
    if size > MOST_PLACE as usize { 7 } else { 0 }
}

// How many octets the text of n greetings in a block of a size is.
pub fn text_octets(table: &[u32], n: usize, size: usize) -> usize
    requires { TextIn table.now n }
    ensures { result ≡ length (form_by size ++ listed_text (held_of table.now n)) }
{
    let first = form_octets(size);
    let rest = octets_of(
        table,
        &table[store_notes::SECOND_LIST..],
        &table[store_notes::FIRST_MARK..],
        n,
    );
    first + rest
}

// The text of n greetings, with room for just that; answers its octets. Saving always writes R-8's lines.
pub fn put_text(table: &[u32], n: usize, size: usize, out: &mut [u8]) -> usize
    requires { (TextIn table.now n) × (length (form_by size ++ listed_text (held_of table.now n)) ≤ length out.old) }
    ensures { Puts out.old 0 (form_by size ++ listed_text (held_of table.now n)) out.new result }
{
    let at = put_form(size, out);
    put_all(
        table,
        &table[store_notes::SECOND_LIST..],
        &table[store_notes::FIRST_MARK..],
        n,
        out,
        at,
    )
}
