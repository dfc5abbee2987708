// A store's table saved as text, and loaded (document 02, R-6, R-8 and R-11). What each call answers and leaves stands in specs/Calls.
#![tactic(auto)]

ghost use Rattle.std.specs.Prelude.{◌≡◌, true, false, ◌+◌, ◌*◌, ◌≤◌, ◌<◌, length, get_or};
ghost use Rattle.rules.specs.Tools.{most_law};
ghost use Rattle.rules.specs.Walk.{longest};
ghost use Rattle.store_rows.specs.Limits.{largest_block, most_greetings, row_cells, list_cells, size_of};
ghost use Rattle.store_rows.specs.Cells.{rows_at, laid};
ghost use Rattle.store_rows.specs.Sane.{rising};
ghost use Rattle.store_greeting.specs.Bad.{is_bad};
ghost use Rattle.store_greeting.specs.Marks.{note_of};
ghost use Rattle.store_notes.specs.Cells.{notes_laid};
ghost use Rattle.store_notes.specs.Changed.{Taken, WithNote};
ghost use Rattle.store_notes.specs.Sane.{store_cells};
ghost use Rattle.store_text.specs.Noted.{listed_at};
ghost use Rattle.store_text.specs.Passing.{next_of, marks_are, note_is};
ghost use Rattle.store_save.specs.Saved.{all_true, load_in, load_noted};
ghost use Rattle.store_save.specs.Steps.{bad_by, notes_by, judged_by, greetings_of, is_whole, Celled, Fitting, OneMore, AllNotes};
ghost use Rattle.store_save.specs.Calls.{verdict_of, Save, Load, Takes};

use store::{Answer, Refusal};
use store_text::Form;

// Whether a text is taken, and why not.
pub type Verdict = Result<(), Refusal>;

// "BAD", greeting by greeting, each walked by its own law.
fn any_bad(block: &[u8], cells: &[u32], laws: &[u32], n: usize, size: usize) -> bool
    requires { (n ≤ most_greetings) × (list_cells ≤ length cells.now) × (most_greetings ≤ length laws.now)
        × (size ≤ length block.now) × (rising 0 0 size (rows_at cells.now n 1) ≡ true) }
    ensures { result ≡ bad_by block.now (rows_at cells.now n 1) laws.now }
{
    for i in 0..n {
        let r = store_rows::rows::row_at(cells, 1 + store_rows::rows::ROW_CELLS * i);
        if store_greeting::greetings::is_bad(&block[r.start..r.start + r.octets], laws[i]) {
            return true;
        }
    }
    false
}

// TABLE over the whole table; only then BAD.
fn judge_rows(block: &[u8], cells: &[u32], laws: &[u32], n: usize) -> Verdict
    requires { (n ≤ most_greetings) × (list_cells ≤ length cells.now) × (most_greetings ≤ length laws.now) }
    ensures { result
        ≡ judged_by block.now (size_of block.now) (rows_at cells.now n 1) laws.now }
{
    let size = store_rows::rows::size_of(block.len());
    if !store_rows::rows::rises(cells, n, 0, size) {
        return Err(Refusal::Table);
    }
    if !store_rows::rows::distinct(cells, n) {
        return Err(Refusal::Table);
    }
    if any_bad(block, cells, laws, n, size) {
        Err(Refusal::Bad)
    } else {
        Ok(())
    }
}

// The marks that stand at a place of the text, beside those of a greeting that is walked once more.
// The loop goes on where the walk and the lines ended, and counts no index.
fn marks_walked(text: &[u8], place: usize, octets: &[u8], law: u32) -> Option<usize>
    requires { (law ≤ most_law) × (length octets.now ≤ longest) × (is_bad law octets.now ≡ false) }
    ensures { result ≡ next_of (marks_are (note_of law octets.now).marks text.now place) }
{
    let mut i = place;
    let mut at = 0;
    let mut samples = 0;
    while at < octets.len() {
        i = store_text::mark_is(text, i, at, samples)?;
        let walked = walk::walk_on(
            octets,
            law,
            rules::ALL_TOOLS,
            at,
            store_greeting::marks::FRAMES_APART,
            store_greeting::marks::ROOM,
        );
        at = walked.place;
        samples += walked.samples;
    }
    store_text::no_mark(text, i)
}

// Beside those that were taken; a greeting that has more marks than stand there is walked once more.
fn same_marks(
    text: &[u8],
    at: usize,
    octets: &[u8],
    head: store_notes::Head,
    marks: &[u32],
) -> Option<usize>
    requires { Taken head octets.now marks.now }
    ensures { result ≡ next_of (marks_are (note_of head.law octets.now).marks text.now at) }
{
    if 2 * head.marks <= marks.len() {
        store_text::marks_are(text, at, marks, head.marks)
    } else {
        marks_walked(text, at, octets, head.law)
    }
}

// The samples and marks that stand at a place of the text, beside those that the greeting's walk gives.
fn same_note(text: &[u8], place: usize, octets: &[u8], law: u32) -> Option<usize>
    requires { (length octets.now ≤ largest_block) × (is_bad law octets.now ≡ false) }
    ensures { result ≡ next_of (note_is (note_of law octets.now).samples (note_of law octets.now).marks
        text.now place) }
{
    let mut cells = [0u32; store_greeting::marks::KEPT_APART];
    let taken = store_greeting::marks::take(octets, law, &mut cells)?;
    let at = store_text::samples_are(text, place, taken.samples)?;
    let head = store_notes::Head {
        law,
        samples: taken.samples,
        marks: taken.marks,
    };
    same_marks(text, at, octets, head, &cells)
}

// "samples or marks that the walk doesn't give", over the whole table.
fn all_true(text: &[u8], form: Form, block: &[u8], size: usize, n: usize) -> bool
    requires { (form.most ≤ largest_block) × Fitting block.now size n (listed_at form.most form.from text.now) }
    ensures { result ≡ all_true block.now (greetings_of (listed_at form.most form.from text.now)) }
{
    let mut at = form.from;
    for _ in 0..n {
        let Some((head, place)) = store_text::head_at(text, at, form.most) else {
            return false;
        };
        let from = head.line.start as usize;
        let end = from + head.line.octets as usize;
        let Some(next) = same_note(text, place, &block[from..end], head.law) else {
            return false;
        };
        at = next;
    }
    true
}

// TABLE, then BAD, then TABLE for samples and marks.
fn judge_noted(
    text: &[u8],
    form: Form,
    block: &[u8],
    cells: &[u32],
    laws: &[u32],
    n: usize,
) -> Verdict
    requires { (form.most ≤ largest_block) × (is_whole (listed_at form.most form.from text.now) ≡ true)
        × Celled (greetings_of (listed_at form.most form.from text.now)) cells.now laws.now n }
    ensures { result ≡ verdict_of (load_in block.now (size_of block.now)
        (greetings_of (listed_at form.most form.from text.now))) }
{
    judge_rows(block, cells, laws, n)?;
    if all_true(text, form, block, store_rows::rows::size_of(block.len()), n) {
        Ok(())
    } else {
        Err(Refusal::Table)
    }
}

// What the walk gives of a greeting, behind the notes that are there.
fn store_note(octets: &[u8], law: u32, table: &mut [u32], i: usize)
    requires { OneMore law octets.now table.old i }
    ensures { WithNote i (note_of law octets.now) table.old table.new }
{
    let mut cells = [0u32; store_greeting::marks::KEPT_APART];
    if let Some(taken) = store_greeting::marks::take(octets, law, &mut cells) {
        let head = store_notes::Head {
            law,
            samples: taken.samples,
            marks: taken.marks,
        };
        store_notes::put_taken(table, i, i, head, octets, &cells);
    }
}

// The notes of all greetings, one after another: accepted samples and marks are those that the walks give.
fn store_notes(block: &[u8], cells: &[u32], laws: &[u32], n: usize, size: usize, table: &mut [u32])
    requires { AllNotes block.now cells.now laws.now n size table.old }
    ensures { table.new
        ≡ notes_laid (notes_by block.now (rows_at cells.now n 1) laws.now) table.old }
{
    table[store_notes::SECOND_LIST] = 0;
    for i in 0..n {
        let r = store_rows::rows::row_at(cells, 1 + store_rows::rows::ROW_CELLS * i);
        store_note(&block[r.start..r.start + r.octets], laws[i], table, i);
    }
}

// The greetings' cells at a table's start: how many they are, then three of each.
fn put_rows(cells: &[u32], n: usize, table: &mut [u32])
    requires { (n ≤ most_greetings) × (1 + row_cells * n ≤ length cells.now) × (1 + row_cells * n ≤ length table.old)
        × (get_or cells.now 0 0 ≡ n) }
    ensures { table.new ≡ laid (rows_at cells.now n 1) table.old }
{
    let end = 1 + store_rows::rows::ROW_CELLS * n;
    rules::copy_over(&mut table[..end], &cells[..end]);
}

// The greetings that were read into cells are put down with their notes.
fn hold(block: &[u8], cells: &[u32], laws: &[u32], n: usize, size: usize, table: &mut [u32])
    requires { (get_or cells.now 0 0 ≡ n) × AllNotes block.now cells.now laws.now n size table.old }
    ensures { table.new ≡ notes_laid (notes_by block.now (rows_at cells.now n 1) laws.now) (laid (rows_at cells.now n 1) table.old) }
{
    put_rows(cells, n, table);
    store_notes(block, cells, laws, n, size, table);
}

// A text of R-8's lines, in a form. It is judged before anything that is lent changes: its greetings go into cells of their own.
fn load_noted(text: &[u8], form: Form, block: &[u8], size: usize, table: &mut [u32]) -> Answer
    requires { (form.most ≤ largest_block) × (size ≡ size_of block.now) × (store_cells size ≤ length table.old) }
    ensures { Takes
        (load_noted block.now (size_of block.now) (listed_at form.most form.from text.now))
        table.old table.new result }
{
    let mut cells = [0u32; store_rows::rows::LIST_CELLS];
    let mut laws = [1u32; store_rows::rows::MOST_GREETINGS];
    let Some(n) = store_text::read_noted(text, form, &mut cells, &mut laws) else {
        return Err(Refusal::Table);
    };
    judge_noted(text, form, block, &cells, &laws, n)?;
    hold(block, &cells, &laws, n, size, table);
    Ok((0, 0))
}

// Loading: "A table all in R-6's lines is read by walking each greeting as law 1". The lent table is output: only its length is judged.
pub fn load(text: &[u8], block: &[u8], table: &mut [u32]) -> Answer
    ensures { Load text.now block.now table.old table.new result }
{
    let size = store_rows::rows::size_of(block.len());
    if table.len() < store_notes::store_cells(size) {
        return Err(Refusal::Table);
    }
    let mut cells = [0u32; store_rows::rows::LIST_CELLS];
    let Some(n) = store_text::read_rows(text, &mut cells) else {
        return load_noted(text, store_text::form_of(text), block, size, table);
    };
    let laws = [1u32; store_rows::rows::MOST_GREETINGS];
    judge_rows(block, &cells, &laws, n)?;
    hold(block, &cells, &laws, n, size, table);
    Ok((0, 0))
}

// Saving: TABLE, then ROOM. The text is measured before anything is written.
pub fn save(block: &[u8], table: &[u32], out: &mut [u8]) -> Answer
    ensures { Save block.now table.now out.old out.new result }
{
    let size = store_rows::rows::size_of(block.len());
    if !store_notes::sane(table, size) {
        return Err(Refusal::Table);
    }
    let n = table[0] as usize;
    let octets = store_text::text_octets(table, n, size);
    if out.len() < octets {
        return Err(Refusal::Room);
    }
    let end = store_text::put_text(table, n, size, out);
    Ok((end, 0))
}
