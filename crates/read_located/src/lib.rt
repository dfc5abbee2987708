// The body of tool 7, value-location. The cells of a frame are its samples: a cell that is plus zero is empty.
#![tactic(auto)]

ghost use Rattle.std.specs.Prelude.{◌≡◌, [], ◌∷◌, ◌++◌, map, false, cond, ◌&&◌, ◌+◌, ◌-◌};
ghost use Rattle.std.specs.Prelude.{◌^◌, ◌%◌, ◌≤◌, ◌<◌, length, take, drop, replicate, eqb, leb, ltb};
ghost use Rattle.rules.specs.Bits.{bits_of};
ghost use Rattle.rules.specs.Samples.{sample_of};
ghost use Rattle.rules.specs.Located.{width_of, listed_from, listed as listing, by_method};
ghost use Rattle.rules.specs.Located.{empty_in, values_of, values_into, located as locates};
ghost use Rattle.read_runs.specs.Flagged.{MarksCells};
ghost use Rattle.read_bodies.specs.Bodied.{FillsBody};
ghost use Rattle.read_located.specs.Valued.{flags_of, fill_in, LaysCells, Apart, RowFor};

use read_bits::{Outcome, Stop};
use rules::Refusal;

// "ceil(log2 D)"
fn width_of(d: usize) -> usize
    requires { d ≤ 320 }
    ensures { (result ≡ width_of d) × (result ≤ 9) }
{
    let mut width = 0;
    let mut power = 1;
    while power < d {
        power += power;
        width += 1;
    }
    width
}

// "Rising, each below D": `least` is the place after the last one.
fn rises(p: usize, least: usize, d: usize) -> bool
    ensures { result ≡ leb least p && ltb p d }
{
    least <= p && p < d
}

// "That many places of ceil(log2 D) bits", judged one by one.
fn places(
    octets: &[u8],
    at: usize,
    d: usize,
    count: usize,
    cells: &mut [u8; 320],
    common: u8,
    other: u8,
) -> Outcome
    requires { (at ≤ 2 ^ 38) × (d ≤ 320) × (count ≤ 4) × (length cells.old ≡ 320) }
    ensures { MarksCells (listed_from (width_of d) d [] count (bits_of octets.now) at) d (at + 36) common other
        cells.old cells.new result }
{
    read_runs::fill(cells, d, common);
    let width = width_of(d);
    let mut least = 0;
    let mut place = at;
    for _read in 0..count {
        let (p, next) = read_bits::number(octets, place, width)?;
        if !rises(p, least, d) {
            return Err(Stop {
                why: Refusal::Place,
                bit: place,
            });
        }
        cells[p] = other;
        least = p + 1;
        place = next;
    }
    Ok((count, place))
}

// "111, two bits for count less one", then the places.
fn listed(
    octets: &[u8],
    at: usize,
    d: usize,
    cells: &mut [u8; 320],
    common: u8,
    other: u8,
) -> Outcome
    requires { (at + 2 ≤ 2 ^ 38) × (d ≤ 320) × (length cells.old ≡ 320) }
    ensures { MarksCells (listing d (bits_of octets.now) at) d (at + 38) common other
        cells.old cells.new result }
{
    let (less, next) = read_bits::number(octets, at, 2)?;
    places(octets, next, d, less + 1, cells, common, other)
}

// The D flags of a value by its method, whose first bit is `start`, as cells.
fn by_method(
    octets: &[u8],
    at: usize,
    n: usize,
    d: usize,
    m: usize,
    start: usize,
    cells: &mut [u8; 320],
    common: u8,
    other: u8,
) -> Outcome
    requires { (at + 2 ≤ 2 ^ 38) × (n ≤ 320) × (d ≤ 320) × (length cells.old ≡ 320) }
    ensures { MarksCells (by_method n d start m (bits_of octets.now) at) d (at + 105600) common other
        cells.old cells.new result }
{
    match m {
        0 => read_runs::straight(octets, at, d, cells, common, other),
        1..=4 => read_runs::runs(octets, at, n, m, d, cells, common, other),
        5 => {
            read_runs::fill(cells, d, common);
            Ok((0, at))
        }
        6 => Err(Stop {
            why: Refusal::Method,
            bit: start,
        }),
        _ => listed(octets, at, d, cells, common, other),
    }
}

// One value: its method and its flags, which may fill every place that was left. The answer is the number of its places and the next place.
// Document 02, R-4: where D is 0 no method but 111 reads a bit, and a listed place is PLACE.
fn value(
    octets: &[u8],
    at: usize,
    n: usize,
    d: usize,
    cells: &mut [u8; 320],
    plus: u8,
    x: u8,
) -> Outcome
    requires { (at + 5 ≤ 2 ^ 38) × (n ≤ 320) × (d ≤ 320) × (length cells.old ≡ 320) }
    ensures { MarksCells (flags_of n d (bits_of octets.now) at) d (at + 105603) plus x
        cells.old cells.new result }
{
    let (m, first) = read_bits::number(octets, at, 3)?;
    by_method(octets, first, n, d, m, at, cells, plus, x)
}

// The marks laid into the empty cells: a place is counted among those still empty. Each cell is written, whichever it is: a choice
// of values costs less than a branch.
// By an index: the cells and the marks go on at different paces.
fn lay(cells: &mut [u8; 320], n: usize, marks: &[u8; 320], plus: u8)
    requires { (n ≤ 320) × (length cells.old ≡ 320) × (length marks.now ≡ 320) }
    ensures { cells.new ≡ fill_in plus marks.now 0 (take n cells.old) ++ drop n cells.old }
{
    let mut p = 0;
    for i in 0..n {
        let empty = cells[i] == plus;
        cells[i] = if empty { marks[p] } else { cells[i] };
        p += usize::from(empty);
    }
}

// The values after the first, laid over it in turn; `left` cells are empty.
fn later(
    octets: &[u8],
    at: usize,
    n: usize,
    left: usize,
    cells: &mut [u8; 320],
    plus: u8,
    xs: &[u8],
) -> Outcome
    requires { (at ≤ 2 ^ 37 + 105606) × (n ≤ 320) × (0 < length xs.now) × (length xs.now ≤ 3) × Apart plus xs.now
        × (length cells.old ≡ 320) × (left ≡ empty_in plus (take n cells.old)) × (left ≤ n) }
    ensures { LaysCells (values_into n plus (drop 1 xs.now) (take n cells.old)
        (bits_of octets.now) at) n (at + 211206) cells.old cells.new result }
{
    let mut marks = [0; 320];
    let mut empty = left;
    let mut place = at;
    for x in &xs[1..] {
        let (ones, next) = value(octets, place, n, empty, &mut marks, plus, *x)?;
        lay(cells, n, &marks, plus);
        empty -= ones;
        place = next;
    }
    Ok((n, place))
}

// The values in turn. "D is N for the first value", and all its cells are empty, so its flags are the cells.
fn values(octets: &[u8], at: usize, n: usize, cells: &mut [u8; 320], plus: u8, xs: &[u8]) -> Outcome
    requires { (at ≤ 2 ^ 37 + 3) × (n ≤ 320) × (0 < length xs.now) × (length xs.now ≤ 3) × Apart plus xs.now
        × (length cells.old ≡ 320) }
    ensures { LaysCells (values_into n plus xs.now (replicate n plus)
        (bits_of octets.now) at) n (at + 316809) cells.old cells.new result }
{
    let (ones, next) = value(octets, at, n, n, cells, plus, xs[0])?;
    later(octets, next, n, n - ones, cells, plus, xs)
}

// The values of a row of the table of range cases, as octets: the first `count`.
// The three octets lie in it, since memory is fixed; a slice of them is made at once.
#[derive(Clone, Copy)]
struct Row {
    count: usize,
    octets: [u8; 3],
}

// Case 0: the three values, for 240 samples and more.
fn three_values(n: usize, flag: usize, mask: u8) -> Option<Row>
    requires { (mask < 128) × (mask % 2 ≡ 1) }
    ensures { RowFor (map (sample_of mask) (values_of n 0 flag)) result }
{
    let one = 127 + mask;
    let less = mask - 1;
    if n < 240 {
        None
    } else if flag == 1 {
        Some(Row {
            count: 3,
            octets: [one, mask, less],
        })
    } else {
        Some(Row {
            count: 3,
            octets: [mask, one, less],
        })
    }
}

// The table of range cases, where no values are CASE: flag 1 begins with 1, flag 0 with -1. A mask is odd, so the octets of 1, -1 and -2
// are 127 + mask, the mask, and the mask less 1.
fn row_of(n: usize, case: usize, flag: usize, mask: u8) -> Option<Row>
    requires { (mask < 128) × (mask % 2 ≡ 1) }
    ensures { RowFor (map (sample_of mask) (values_of n case flag)) result }
{
    let one = 127 + mask;
    let less = mask - 1;
    if n < 80 {
        return None;
    }
    if case == 0 {
        three_values(n, flag, mask)
    } else if case == 1 {
        if flag == 1 {
            Some(Row {
                count: 2,
                octets: [one, mask, 0],
            })
        } else {
            Some(Row {
                count: 2,
                octets: [mask, one, 0],
            })
        }
    } else if case == 2 {
        if flag == 1 {
            None
        } else {
            Some(Row {
                count: 2,
                octets: [mask, less, 0],
            })
        }
    } else if flag == 1 {
        Some(Row {
            count: 1,
            octets: [one, 0, 0],
        })
    } else {
        None
    }
}

// "Range case (2 bits), flag (1 bit), then the values in turn"; CASE is judged of all three bits and N together.
pub fn located(octets: &[u8], at: usize, n: usize, mask: u8, samples: &mut [u8; 320]) -> Outcome
    requires { (at ≤ 2 ^ 37) × (n ≤ 320) × (mask < 128) × (mask % 2 ≡ 1) × (length samples.old ≡ 320) }
    ensures { FillsBody (locates mask n (bits_of octets.now) at) (at + 400000)
        samples.old samples.new result }
{
    let (case, second) = read_bits::number(octets, at, 2)?;
    let (flag, first) = read_bits::number(octets, second, 1)?;
    match row_of(n, case, flag, mask) {
        None => Err(Stop {
            why: Refusal::Case,
            bit: at,
        }),
        Some(row) => values(
            octets,
            first,
            n,
            samples,
            128 + mask,
            &row.octets[..row.count],
        ),
    }
}
