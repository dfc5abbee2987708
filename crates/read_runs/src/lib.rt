// D flags of a value or a frame, 0 the common kind and 1 the other, as runs or bit by bit: each marks a lent cell by its kind.
#![tactic(auto)]

ghost use Rattle.std.specs.Prelude.{◌≡◌, [], ◌+◌, ◌*◌, ◌-◌, ◌^◌, ◌≤◌, ◌<◌, length, replicate};
ghost use Rattle.rules.specs.Bits.{low_bits, bits_of};
ghost use Rattle.rules.specs.Reading.{bits_from};
ghost use Rattle.rules.specs.Runs.{runs as runs_over};
ghost use Rattle.read_bits.specs.Outcomes.{Reads};
ghost use Rattle.read_runs.specs.Flagged.{one_run, kind_of, kinds, Put, MarksCells};
ghost use Rattle.read_runs.specs.Reached.{ReadsSeveral, end_of};

use read_bits::{Outcome, Stop};
use rules::Refusal;

// The first d cells are x.
// The cells are a frame buffer with a number beside: memory is fixed, and contracts speak of the first d and of the rest as lent.
pub fn fill(cells: &mut [u8; 320], d: usize, x: u8)
    requires { (d ≤ 320) × (length cells.old ≡ 320) }
    ensures { Put cells.old 0 (replicate d x) cells.new }
{
    cells[..d].fill(x);
}

// A run of v places, of those left.
fn run(octets: &[u8], at: usize, n: usize, s: usize, left: usize) -> Outcome
    requires { (at ≤ 2 ^ 39) × (n ≤ 320) × (s ≤ 9) × (left ≤ 320) }
    ensures { Reads (one_run n s left (bits_of octets.now) at) left (at + 330) result }
{
    let (v, next) = read_bits::rice(octets, at, n, s)?;
    if left < v {
        Err(Stop {
            why: Refusal::Run,
            bit: at,
        })
    } else {
        Ok((v, next))
    }
}

// A run that reaches the end of the places: the place it comes to, and its bits.
#[derive(Clone, Copy)]
struct Reach {
    past: usize,
    size: usize,
}

// What `several` has read: how far the places are filled, how many marks there are, the next place, and the run there that reaches the
// end, if it is known.
#[derive(Drop)]
struct Stretch {
    filled: usize,
    count: usize,
    place: usize,
    reach: Option<Reach>,
}

// The runs whose codes stand whole in one word of bits: leading zeros, a shift and a mark each.
// No `for`: a turn takes a code off the word, and how many stand in it is known when none is left.
fn several(
    octets: &[u8],
    at: usize,
    n: usize,
    s: usize,
    d: usize,
    before: usize,
    marks: usize,
    cells: &mut [u8; 320],
    other: u8,
) -> Stretch
    requires { (at ≤ 2 ^ 40) × (s ≤ 9) × (d ≤ 320) × (before ≤ d) × (marks ≤ before) × (length cells.old ≡ 320) }
    ensures { ReadsSeveral octets.now n s d other cells.old before marks at cells.new result }
{
    let held = read_bits::hold(octets, at, n);
    let all = held.good;
    let mut word = held.word;
    let mut good = held.good;
    let mut filled = before;
    let mut count = marks;
    loop {
        let zeros = read_bits::zeros_in(word);
        if zeros == 32 {
            break;
        }
        let size = zeros + (s + 1);
        if good < size {
            break;
        }
        let p = filled + read_bits::run_in(word, zeros, s);
        if d <= p {
            return Stretch {
                filled,
                count,
                place: at + (all - good),
                reach: Some(Reach { past: p, size }),
            };
        }
        cells[p] = other;
        filled = p + 1;
        count += 1;
        word = word << size;
        good -= size;
    }
    Stretch {
        filled,
        count,
        place: at + (all - good),
        reach: None,
    }
}

// A run that reaches the end of D places: none is wanted, it is too long, or its closing sample is imagined.
fn ended(filled: usize, count: usize, place: usize, run: Reach, d: usize) -> Outcome
    requires { (place ≤ 2 ^ 40) × (run.size ≤ 41) }
    ensures { result ≡ end_of d filled count place run }
{
    if d <= filled {
        Ok((count, place))
    } else if d < run.past {
        Err(Stop {
            why: Refusal::Run,
            bit: place,
        })
    } else {
        Ok((count, place + run.size))
    }
}

// "Runs over D places": v places of the common kind, then one of the other, till all D are filled.
// The answer is the number of the other kind and the next place, or the refusal and its bit.
// No `for`: a turn is a word or a code, and the places that it fills are known when it is read.
pub fn runs(
    octets: &[u8],
    at: usize,
    n: usize,
    s: usize,
    d: usize,
    cells: &mut [u8; 320],
    common: u8,
    other: u8,
) -> Outcome
    requires { (at ≤ 2 ^ 38) × (n ≤ 320) × (s ≤ 9) × (d ≤ 320) × (length cells.old ≡ 320) }
    ensures { MarksCells (runs_over n s d (bits_of octets.now) at) d (at + 330 * d) common other
        cells.old cells.new result }
{
    fill(cells, d, common);
    let mut filled = 0;
    let mut count = 0;
    let mut place = at;
    loop {
        let before = filled;
        let t = several(octets, place, n, s, d, filled, count, cells, other);
        filled = t.filled;
        count = t.count;
        place = t.place;
        if let Some(run) = t.reach {
            break ended(filled, count, place, run, d);
        }
        if before < filled {
            continue;
        }
        if d <= filled {
            break Ok((count, place));
        }
        // A code that no word holds whole
        let left = d - filled;
        let (v, next) = run(octets, place, n, s, left)?;
        if v == left {
            break Ok((count, next));
        }
        cells[filled + v] = other;
        filled += v + 1;
        count += 1;
        place = next;
    }
}

// A cell by its flag.
fn kind(flag: u16, common: u8, other: u8) -> u8
    ensures { result ≡ kind_of common other flag }
{
    if flag == 1 { other } else { common }
}

// The n low bits of v, highest first, as cells from a place on: at most eight, so that the compiler lays them at once.
// By an index, since it is the bit's and the cell's.
fn few(cells: &mut [u8; 320], from: usize, v: u16, n: usize, common: u8, other: u8)
    requires { (from + n ≤ 320) × (n ≤ 8) × (length cells.old ≡ 320) }
    ensures { Put cells.old from (kinds common other (low_bits n v)) cells.new
        × (length cells.new ≡ 320) }
{
    for j in 0..n {
        cells[from + j] = kind((v >> (n - (j + 1))) % 2, common, other);
    }
}

// The same of a whole window of 32 bits, with no loop: nearly every window is whole.
fn spread_all(cells: &mut [u8; 320], from: usize, v: usize, common: u8, other: u8)
    requires { (from + 32 ≤ 320) × (length cells.old ≡ 320) }
    ensures { Put cells.old from (kinds common other (low_bits 32 v)) cells.new }
{
    few(cells, from, ((v >> 24) % 256) as u16, 8, common, other);
    few(cells, from + 8, ((v >> 16) % 256) as u16, 8, common, other);
    few(cells, from + 16, ((v >> 8) % 256) as u16, 8, common, other);
    few(cells, from + 24, (v % 256) as u16, 8, common, other);
}

// The same of a window, eight bits at a time; the last of them may be fewer.
// The place is counted by hand: a `step_by` leaves its end open, which the last bits need.
fn spread(cells: &mut [u8; 320], from: usize, v: usize, n: usize, common: u8, other: u8)
    requires { (from + n ≤ 320) × (n ≤ 32) × (length cells.old ≡ 320) }
    ensures { Put cells.old from (kinds common other (low_bits n v)) cells.new }
{
    if n == 32 {
        return spread_all(cells, from, v, common, other);
    }
    let mut j = 0;
    while j + 8 <= n {
        let eight = (v >> (n - (j + 8))) % 256;
        few(cells, from + j, eight as u16, 8, common, other);
        j += 8;
    }
    let rest = v % 256;
    few(cells, from + j, rest as u16, n - j, common, other);
}

// "D bits, where a 1 is an occurrence and the number of occurrences is the number of one bits", a window at a time; the last may
// be shorter.
// By hand, since the windows go on by 32 and the last by what is left.
pub fn straight(
    octets: &[u8],
    at: usize,
    d: usize,
    cells: &mut [u8; 320],
    common: u8,
    other: u8,
) -> Outcome
    requires { (at ≤ 2 ^ 38) × (d ≤ 320) × (length cells.old ≡ 320) }
    ensures { MarksCells (bits_from [] d (bits_of octets.now) at) d (at + d) common other
        cells.old cells.new result }
{
    let mut filled = 0;
    let mut count = 0;
    let mut place = at;
    while filled < d {
        let n = (d - filled).min(32);
        let (v, next) = read_bits::number(octets, place, n)?;
        spread(cells, filled, v, n, common, other);
        count += u32::count_ones(v as u32) as usize;
        filled += n;
        place = next;
    }
    Ok((count, place))
}
