// Value-location: whether it applies to a frame, and what it would write: the row, the flag, and the values with their ways.
#![tactic(auto)]

ghost use Rattle.std.specs.Prelude.{◌≡◌, true, cond, ◌&&◌, ◌+◌, ◌%◌, ◌≤◌, ◌<◌, length, Some, leb};
ghost use Rattle.rules.specs.Chooses.{least_of, greatest_of, applies};
ghost use Rattle.write_scan.specs.Looks.{near, is_mask, FrameIn};
ghost use Rattle.write_located.specs.Ways.{WayFor, WayIn, InTurn, WaysAre};
ghost use Rattle.write_located.specs.Rows.{least_by, greatest_by, row_for, Tallied, again, only_of, two, three};
ghost use Rattle.write_located.specs.Rows.{values_by, values_for, LocatedIs};

use law::{minus_zero, plus_zero, sample_of};
use write_measure::{least_s, width_of};
use write_runs::{Sought, found_in};
use write_scan::count_of;

// How a value is written: its method, all its bits with the method's three, its D places, how often it occurs, and how many runs it has.
// The method stays the paper's number, 000 to 111: those three bits are put, and of runs the number is S.
#[derive(Clone, Copy, Drop)]
pub struct Way {
    pub method: u8,
    pub bits: usize,
    pub d: usize,
    pub count: usize,
    pub runs: usize,
}

// "101 if it doesn't occur; 000 if L exceeds D; else 111 if it occurs at most 4 times and L exceeds count times
// ceil(log2 D) plus 2; else runs". The runs are those of the value's D flags.
fn way_of(runs: &[u16], d: usize, count: usize) -> Way
    requires { (length runs.now ≤ 321) × (d ≤ 320) }
    ensures { WayFor runs.now d count result }
{
    let absent = Way {
        method: 5,
        bits: 3,
        d,
        count,
        runs: runs.len(),
    };
    if count == 0 {
        return absent;
    }
    let least = least_s(runs, &[0; 10], 4);
    if d < least.bits {
        return Way {
            method: 0,
            bits: 3 + d,
            ..absent
        };
    }
    let by_runs = Way {
        method: least.s as u8,
        bits: 3 + least.bits,
        ..absent
    };
    if 4 < count {
        return by_runs;
    }
    let listed = count * width_of(d) + 2;
    if least.bits <= listed {
        return by_runs;
    }
    Way {
        method: 7,
        bits: 3 + listed,
        ..absent
    }
}

// The same of a value that the row may lack: one that it lacks has no bits.
fn way_if(has: bool, runs: &[u16], d: usize, count: usize) -> Way
    requires { (length runs.now ≤ 321) × (d ≤ 320) }
    ensures { WayIn has runs.now d count result }
{
    if has {
        way_of(runs, d, count)
    } else {
        Way {
            method: 5,
            bits: 0,
            d,
            count,
            runs: runs.len(),
        }
    }
}

// How many samples are 0, 1, -1 and -2.
#[derive(Clone, Copy, Drop)]
pub struct Tally {
    pub plus: usize,
    pub one: usize,
    pub minus: usize,
    pub twos: usize,
}

// All samples are from -2 to 1, so what is none of the three is 0.
pub fn tally_of(frame: &[u8], mask: u8) -> Tally
    requires frame_in { (1 ≤ length frame.now) × ((length frame.now ≤ 320) × (is_mask mask ≡ true)) }
    requires samples_value { near (least_of mask frame.now) (greatest_of mask frame.now) ≡ true }
    ensures { Tallied mask frame.now result }
{
    let one = count_of(frame, sample_of(mask, 1));
    let minus = count_of(frame, minus_zero(mask));
    let twos = count_of(frame, sample_of(mask, -2));
    Tally {
        plus: frame.len() - (one + minus + twos),
        one,
        minus,
        twos,
    }
}

// The least of the samples, as a place on the line of signed numbers, where 0 is at 128.
#[tactic(auto, unfolding(crate::specs::Rows::least_by))]
fn least_in(t: Tally) -> u8
    ensures { result ≡ least_by t.twos t.minus t.plus }
{
    if t.twos != 0 {
        126
    } else if t.minus != 0 {
        127
    } else if t.plus != 0 {
        128
    } else {
        129
    }
}

// Apart from `least_in`: the values are asked in another order, so one function of both is no plainer.
#[tactic(auto, unfolding(crate::specs::Rows::greatest_by))]
fn greatest_in(t: Tally) -> u8
    ensures { result ≡ greatest_by t.one t.plus t.minus }
{
    if t.one != 0 {
        129
    } else if t.plus != 0 {
        128
    } else if t.minus != 0 {
        127
    } else {
        126
    }
}

// "least and greatest are a row's, N fits it"
#[tactic(auto, unfolding(crate::specs::Rows::row_by))]
pub fn row_of(t: Tally, n: usize) -> Option<usize>
    ensures { result ≡ row_for t n }
{
    let least = least_in(t);
    let greatest = greatest_in(t);
    if least == 126 && greatest == 129 && 240 <= n {
        Some(0)
    } else if least == 127 && greatest == 129 && 80 <= n {
        Some(1)
    } else if least == 126 && greatest == 128 && 80 <= n {
        Some(2)
    } else if least == 128 && greatest == 129 && 80 <= n {
        Some(3)
    } else {
        None
    }
}

// "N is 80 or more, least and greatest are a row's, N fits it, and no value is more frequent than 0": the last of these.
pub fn zero_leads(t: Tally) -> bool
    ensures { result ≡ leb t.one t.plus && leb t.minus t.plus && leb t.twos t.plus }
{
    t.one <= t.plus && t.minus <= t.plus && t.twos <= t.plus
}

// "flag 1 if as many samples are above 0 as below or more"
fn flag_of(above: usize, below: usize) -> usize
    ensures { (result ≡ cond (leb below above) 1 0) × (result < 2) }
{
    if below <= above { 1 } else { 0 }
}

// A value as a sample, and how often it occurs.
#[derive(Clone, Copy, Drop)]
pub struct Value {
    pub sample: u8,
    pub times: usize,
}

// Values in their order: the first `count`. One that the row lacks is the first once more, and does not occur. No array: each has its own
// lent runs and its own D, which are no array either.
#[derive(Clone, Copy, Drop)]
pub struct Values {
    pub first: Value,
    pub second: Value,
    pub third: Value,
    pub count: usize,
}

// Three values, two, or only one.
fn three(x: Value, y: Value, z: Value) -> Values
    ensures { result ≡ three x y z }
{
    Values {
        first: x,
        second: y,
        third: z,
        count: 3,
    }
}

// A value where the row lacks one: it is there, and does not occur.
fn again(x: Value) -> Value
    ensures { result ≡ again x }
{
    Value { times: 0, ..x }
}

fn two(x: Value, y: Value) -> Values
    ensures { result ≡ two x y }
{
    Values {
        first: x,
        second: y,
        third: again(x),
        count: 2,
    }
}

fn only(x: Value) -> Values
    ensures { result ≡ only_of x }
{
    Values {
        first: x,
        second: again(x),
        third: again(x),
        count: 1,
    }
}

// A row's values in the flag's order. Where the greatest is 0 the flag is 0, and where the least is 0 it is 1.
#[tactic(auto, unfolding(crate::specs::Rows::values_by))]
fn ordered(row: usize, flag: usize, one: Value, minus: Value, twos: Value) -> Values
    ensures { result ≡ values_by row flag one minus twos }
{
    match (row, flag) {
        (3, _) => only(one),
        (2, _) => two(minus, twos),
        (1, 1) => two(one, minus),
        (1, _) => two(minus, one),
        (_, 1) => three(one, minus, twos),
        _ => three(minus, one, twos),
    }
}

// The same of the values that were counted.
fn values_of(mask: u8, t: Tally, row: usize, flag: usize) -> Values
    requires { mask < 128 }
    ensures { result ≡ values_for mask t row flag }
{
    let one = Value {
        sample: sample_of(mask, 1),
        times: t.one,
    };
    let minus = Value {
        sample: minus_zero(mask),
        times: t.minus,
    };
    let twos = Value {
        sample: sample_of(mask, -2),
        times: t.twos,
    };
    ordered(row, flag, one, minus, twos)
}

// A way for each value.
// No array, as of `Values`.
#[derive(Clone, Copy, Drop)]
pub struct Ways {
    pub first: Way,
    pub second: Way,
    pub third: Way,
}

// The ways of values, one after the other, "D is N for the first value, then the places still empty". Their runs are left in the
// lent arrays.
fn ways_of(
    frame: &[u8],
    plus: u8,
    v: Values,
    a: &mut [u16; 321],
    b: &mut [u16; 321],
    c: &mut [u16; 321],
) -> Ways
    requires frame_bound { (length frame.now ≤ 320) × (length frame.now % 40 ≡ 0) }
    requires in_turn { InTurn plus frame.now v }
    ensures { WaysAre frame.now v result a.new b.new c.new }
{
    let sought = Sought {
        plus,
        first: v.first.sample,
        second: v.second.sample,
        third: v.third.sample,
    };
    let found = found_in(frame, sought, a, b, c);
    let n = frame.len();
    let d = n - v.first.times;
    let e = d - v.second.times;
    Ways {
        first: way_of(&a[..found.first], n, v.first.times),
        second: way_if(2 <= v.count, &b[..found.second], d, v.second.times),
        third: way_if(3 <= v.count, &c[..found.third], e, v.third.times),
    }
}

// What value-location writes: its bits, the row, the flag, how many values the row has for the flag, and a way for each.
#[derive(Clone, Copy, Drop)]
pub struct Located {
    pub bits: usize,
    pub row: usize,
    pub flag: usize,
    pub count: usize,
    pub first: Way,
    pub second: Way,
    pub third: Way,
}

// The bits of value-location: the first octet, "range case (2 bits), flag (1 bit), then the values".
fn located_bits(w: Ways) -> usize
    requires { w.first.bits + w.second.bits + w.third.bits ≤ 600000000 }
    ensures { result ≡ 11 + (w.first.bits + w.second.bits + w.third.bits) }
{
    11 + (w.first.bits + w.second.bits + w.third.bits)
}

// A frame's tally, and the row that it has by it.
#[derive(Clone, Copy, Drop)]
pub struct Counted {
    pub tally: Tally,
    pub row: usize,
}

// What value-location writes of a frame that it applies to. The runs of its values are left in the lent arrays.
pub fn located_of(
    frame: &[u8],
    mask: u8,
    k: Counted,
    a: &mut [u16; 321],
    b: &mut [u16; 321],
    c: &mut [u16; 321],
) -> Located
    requires frame_in { (FrameIn frame.now) × (is_mask mask ≡ true) }
    requires tallied { (Tallied mask frame.now k.tally) × (applies mask 7 frame.now ≡ true) }
    requires row_value { Some k.row ≡ row_for k.tally (length frame.now) }
    ensures { LocatedIs mask frame.now result a.new b.new c.new }
{
    let t = k.tally;
    let flag = flag_of(t.one, t.minus + t.twos);
    let v = values_of(mask, t, k.row, flag);
    let w = ways_of(frame, plus_zero(mask), v, a, b, c);
    Located {
        bits: located_bits(w),
        row: k.row,
        flag,
        count: v.count,
        first: w.first,
        second: w.second,
        third: w.third,
    }
}
