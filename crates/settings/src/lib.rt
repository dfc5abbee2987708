// Settings that can be put back (document 02, R-13): a box's last eight settings in 41 lent numbers, saved, gone back to, read and wiped.
// What each call answers and leaves stands in specs/Calls.
#![tactic(auto)]

ghost use Rattle.std.specs.Prelude.{◌≡◌, [], ◌∷◌, ◌++◌, ◌+◌, ◌*◌, ◌-◌, ◌≤◌, ◌<◌, length, take, drop, replicate};
ghost use Rattle.text_lines.specs.Puts.{Puts};
ghost use Rattle.settings.specs.Lines.{settings_in, settings_text};
ghost use Rattle.settings.specs.Revisions.{added, add_to, look_up, most_number};
ghost use Rattle.settings.specs.State.{values_at, row_at, box_of, cells_of, laid};
ghost use Rattle.settings.specs.Gathers.{KeepsRow, Gathers};
ghost use Rattle.settings.specs.Calls.{refusal_number, settings-not-zero, Adds, Save, Back, Read, Wipe};

use rules::{ALL_TOOLS, MOST_LAW, Numbered};

pub mod tells;

// The greatest block and greeting; law and set are those of the calls.
pub const MOST_BLOCK: u32 = 1048576;

pub const MOST_GREETING: u32 = 65535;

#[derive(Clone, Copy)]
pub struct Settings {
    pub law: u32,
    pub set: u32,
    pub block: u32,
    pub greeting: u32,
}

// Settings under the number they were saved with.
#[derive(Drop)]
pub struct Revision {
    pub number: u32,
    pub values: Settings,
}

// LINE (23), GONE (24), SPENT (25).
#[derive(Clone, Copy)]
pub enum Refusal {
    Line,
    Gone,
    Spent,
}

impl Numbered for Refusal {
    ghost number = { refusal_number };

    ghost never_zero = { settings-not-zero };

    fn number(self) -> u32 {
        match self {
            Refusal::Line => 23,
            Refusal::Gone => 24,
            Refusal::Spent => 25,
        }
    }
}

// The new revision's number, or the octets of a text; or the refusal.
pub type Answer = Result<u32, Refusal>;

// "`law` (0 or 1), `set` (0 to 127), `block` (1 to 1,048,576), `greeting` (0 to 65,535) .., one line each in that order".
pub fn settings_in(text: &[u8]) -> Option<Settings>
    ensures { result ≡ settings_in text.now }
{
    let (law, a) = text_keyvalue::ranged_line(text, 0, b"law=", 0, MOST_LAW)?;
    let (set, b) = text_keyvalue::ranged_line(text, a, b"set=", 0, ALL_TOOLS)?;
    let (block, c) = text_keyvalue::ranged_line(text, b, b"block=", 1, MOST_BLOCK)?;
    let (greeting, d) = text_keyvalue::ranged_line(text, c, b"greeting=", 0, MOST_GREETING)?;
    if d < text.len() {
        None
    } else {
        Some(Settings {
            law,
            set,
            block,
            greeting,
        })
    }
}

// The four lines of whatever values stand there: at most 67 octets.
fn put_settings(s: Settings, out: &mut [u8]) -> usize
    requires { length out.old ≡ 80 }
    ensures puts { Puts out.old 0 (settings_text s) out.new result }
    ensures most { result ≤ 67 }
{
    let a = text_keyvalue::put_line(b"law=", s.law, out, 0);
    let b = text_keyvalue::put_line(b"set=", s.set, out, a);
    let c = text_keyvalue::put_line(b"block=", s.block, out, b);
    text_keyvalue::put_line(b"greeting=", s.greeting, out, c)
}

// Four fields at their places: a loop would be no plainer.
fn values_at(state: &[u32], i: usize) -> Settings
    requires { i + 4 ≤ length state.now }
    ensures { result ≡ values_at state.now i }
{
    Settings {
        law: state[i],
        set: state[i + 1],
        block: state[i + 2],
        greeting: state[i + 3],
    }
}

fn row_at(state: &[u32], k: usize) -> Revision
    requires { (k < 8) × (length state.now ≡ 41) }
    ensures { result ≡ row_at state.now k }
{
    Revision {
        number: state[5 * k + 1],
        values: values_at(state, 5 * k + 2),
    }
}

// The values kept under a number: "of two with one number the first is meant". Revision 0 is none, as the 41 numbers have it.
fn look_up(state: &[u32], n: u32) -> Option<Settings>
    requires { length state.now ≡ 41 }
    ensures { result ≡ look_up n (box_of state.now).revisions }
{
    if n == 0 {
        return None;
    }
    for k in 0..8 {
        let r = row_at(state, k);
        if r.number == n {
            return Some(r.values);
        }
    }
    None
}

// A revision's five numbers at place `at` of lent rows.
// Each field at its place: a loop would be no plainer.
fn put_row(rows: &mut [u32], at: usize, r: Revision)
    requires { (at + 5 ≤ length rows.old) × (at ≤ 40) }
    ensures { rows.new ≡ take at rows.old ++ (cells_of (r ∷ []) ++ drop (at + 5) rows.old) }
{
    rows[at] = r.number;
    rows[at + 1] = r.values.law;
    rows[at + 2] = r.values.set;
    rows[at + 3] = r.values.block;
    rows[at + 4] = r.values.greeting;
}

// A row after k that are kept, if it is kept; how many are then.
fn keep_row(rows: &mut [u32], k: usize, r: Revision) -> usize
    requires { (k < 8) × (length rows.old ≡ 45) }
    ensures { KeepsRow r k rows.old rows.new result }
{
    if r.number == 0 {
        k
    } else {
        put_row(rows, 5 * k, r);
        k + 1
    }
}

// The kept revisions from the first of the lent rows on, which are all 0; how many they are.
fn gather(state: &[u32], rows: &mut [u32]) -> usize
    requires { (length state.now ≡ 41) × (rows.old ≡ replicate 45 0) }
    ensures { Gathers (box_of state.now).revisions rows.new result }
{
    let mut k = 0;
    for i in 0..8 {
        let r = row_at(state, i);
        k = keep_row(rows, k, r);
    }
    k
}

// "the ninth pushes out the oldest": the place of the first row that stays.
fn first_kept(k: usize) -> usize
    requires { k ≤ 8 }
    ensures { result ≡ 5 * (k + 1 - 8) }
{
    if k < 8 { 0 } else { 5 }
}

// The numbers once values are added.
fn with_added(state: &[u32], v: Settings) -> [u32; 41]
    requires { (length state.now ≡ 41) × ((box_of state.now).last < most_number) }
    ensures { result ≡ laid (added (box_of state.now) v) }
{
    let mut rows = [0u32; 45];
    let k = gather(state, &mut rows);
    let number = state[0] + 1;
    put_row(&mut rows, 5 * k, Revision { number, values: v });
    let from = first_kept(k);
    let mut next = [0u32; 41];
    next[0] = number;
    rules::copy_over(&mut next[1..], &rows[from..from + 40]);
    next
}

// The last number given.
fn last_of(state: &[u32]) -> u32
    requires { length state.now ≡ 41 }
    ensures { result ≡ (box_of state.now).last }
{
    state[0]
}

// "Save adds a revision numbered one more than the last"; SPENT.
fn add(state: &mut [u32; 41], v: Settings) -> Answer
    ensures { Adds (add_to (box_of state.old) v) state.old state.new result }
{
    let last = last_of(state);
    if last == u32::MAX {
        return Err(Refusal::Spent);
    }
    *state = with_added(state, v);
    Ok(last + 1)
}

// Saving a text: LINE, SPENT.
pub fn save(state: &mut [u32; 41], text: &[u8]) -> Answer
    ensures { Save text.now state.old state.new result }
{
    let v = settings_in(text).ok_or(Refusal::Line)?;
    add(state, v)
}

// Going back to a kept revision: GONE, SPENT.
pub fn back(state: &mut [u32; 41], revision: u32) -> Answer
    ensures { Back revision state.old state.new result }
{
    let v = look_up(state, revision).ok_or(Refusal::Gone)?;
    add(state, v)
}

// A kept revision's text: GONE.
pub fn read(state: &[u32; 41], revision: u32, text: &mut [u8; 80]) -> Answer
    ensures { Read revision state.now text.old text.new result }
{
    let v = look_up(state, revision).ok_or(Refusal::Gone)?;
    let octets = put_settings(v, text);
    Ok(octets as u32)
}

// "A wipe for the next tenant empties the list and leaves the numbering running."
pub fn wipe(state: &mut [u32; 41])
    ensures { Wipe state.old state.new }
{
    state[1..].fill(0);
}
