// The body of tool 11 (document 02, R-14; 001, section 8.9), read into a lent frame buffer.
#![tactic(auto)]

ghost use Rattle.std.specs.Prelude.{◌≡◌, ◌+◌, ◌*◌, ◌^◌, ◌/◌, ◌%◌, ◌≤◌, ◌<◌, length};
ghost use Rattle.rules.specs.Fractional.{coding, coding_of, Packs, digits_of};
ghost use Rattle.read_fractional.specs.Rows.{six};
ghost use Rattle.read_fractional.specs.Filled.{Lays, Body, RowBody};

use read_bits::{Outcome, Stop};
use rules::Refusal;
use value_rows::{row_at, sample_at};

// Division by each R', a constant, so that it is a product and a shift.
fn quotient(v: usize, r: usize) -> usize
    requires { (2 ≤ r) × (r ≤ 6) }
    ensures { result ≡ v / r }
{
    match r {
        2 => v / 2,
        3 => v / 3,
        4 => v / 4,
        5 => v / 5,
        _ => v / 6,
    }
}

// The g digits of V as samples, from a place on: by repeated division, the lowest first. By an index: g is 5 where it is called, and the
// loop is laid out.
fn lay(samples: &mut [u8; 320], from: usize, v: usize, r: usize, g: usize, values: &[u8; 6])
    requires { (from + g ≤ 320) × (v < 8192) × (2 ≤ r) × (r ≤ 6) × (length samples.old ≡ 320) × (length values.now ≡ 6) }
    ensures { Lays samples.old from values.now (digits_of r g v) samples.new }
{
    let mut left = v;
    for j in 0..g {
        let q = quotient(left, r);
        samples[from + j] = values[left - r * q];
        left = q;
    }
}

// R'^5, which V is below.
fn fifth(r: usize) -> usize
    requires { (2 ≤ r) × (r ≤ 6) }
    ensures { result ≡ r ^ 5 }
{
    match r {
        2 => 32,
        3 => 243,
        4 => 1024,
        5 => 3125,
        _ => 7776,
    }
}

// n samples in groups of five digits and w bits. "V not below R'^5 is PLACE, judged when V is whole, at V's first bit."
// A step is five samples, and ends the body where V is refused.
// The place is counted by hand: a `step_by` leaves its end open.
fn groups(
    octets: &[u8],
    at: usize,
    n: usize,
    r: usize,
    w: usize,
    values: &[u8; 6],
    samples: &mut [u8; 320],
) -> Outcome
    requires at_bound { (at ≤ 2 ^ 37) × (length samples.old ≡ 320) × (length values.now ≡ 6) }
    requires packs { Packs (coding r 5 w) n }
    ensures { Body (coding r 5 w) values.now n octets.now at samples.old samples.new result }
{
    let most = fifth(r);
    let mut filled = 0;
    let mut place = at;
    while filled < n {
        let (v, next) = read_bits::number(octets, place, w)?;
        if most <= v {
            return Err(Stop {
                why: Refusal::Place,
                bit: place,
            });
        }
        lay(samples, filled, v, r, 5, values);
        filled += 5;
        place = next;
    }
    Ok((n, place))
}

// "R' = 2": N bits, read by windows; each one picks one of the two values (8-23).
fn two_values(
    octets: &[u8],
    at: usize,
    n: usize,
    values: &[u8; 6],
    samples: &mut [u8; 320],
) -> Outcome
    requires { (at ≤ 2 ^ 37) × (n ≤ 320) × (length samples.old ≡ 320) × (length values.now ≡ 6) }
    ensures { Body (coding 2 1 1) values.now n octets.now at samples.old samples.new result }
{
    let (_, next) = read_runs::straight(octets, at, n, samples, values[0], values[1])?;
    Ok((n, next))
}

// "R' = 4": N numbers of two bits; each one picks one of the four values (8-24), (8-25), and none can be refused but at the octets' end.
fn four_values(
    octets: &[u8],
    at: usize,
    n: usize,
    values: &[u8; 6],
    samples: &mut [u8; 320],
) -> Outcome
    requires { (at ≤ 2 ^ 37) × (n ≤ 320) × (length samples.old ≡ 320) × (length values.now ≡ 6) }
    ensures { Body (coding 4 1 2) values.now n octets.now at samples.old samples.new result }
{
    let mut place = at;
    for filled in 0..n {
        let (v, next) = read_bits::number(octets, place, 2)?;
        samples[filled] = values[v];
        place = next;
    }
    Ok((n, place))
}

// The samples of a row's digits. Those past its last one are never looked at.
fn values_of(mask: u8, low: usize, below: usize) -> [u8; 6]
    requires { (mask < 128) × (below ≤ low) × (low < 128) }
    ensures { result ≡ six mask low below }
{
    [
        sample_at(mask, low, below, 0),
        sample_at(mask, low, below, 1),
        sample_at(mask, low, below, 2),
        sample_at(mask, low, below, 3),
        sample_at(mask, low, below, 4),
        sample_at(mask, low, below, 5),
    ]
}

// n samples by R'. "R' = 2 and 4: 1 and 2 bits a sample. R' = 3, 5, 6: five samples in 8, 12, 13 bits."
fn by_radix(
    octets: &[u8],
    at: usize,
    n: usize,
    r: usize,
    values: &[u8; 6],
    samples: &mut [u8; 320],
) -> Outcome
    requires { (at ≤ 2 ^ 37) × (n ≤ 320) × (n % 40 ≡ 0) × (2 ≤ r) × (r ≤ 6) × (length samples.old ≡ 320) × (length values.now ≡ 6) }
    ensures { Body (coding_of r) values.now n octets.now at samples.old samples.new result }
{
    match r {
        2 => two_values(octets, at, n, values, samples),
        3 => groups(octets, at, n, 3, 8, values, samples),
        4 => four_values(octets, at, n, values, samples),
        5 => groups(octets, at, n, 5, 12, values, samples),
        _ => groups(octets, at, n, 6, 13, values, samples),
    }
}

// The body of row k.
pub fn body(
    octets: &[u8],
    at: usize,
    n: usize,
    k: usize,
    mask: u8,
    samples: &mut [u8; 320],
) -> Outcome
    requires { (at ≤ 2 ^ 37) × (n ≤ 320) × (n % 40 ≡ 0) × (k < 12) × (mask < 128) × (length samples.old ≡ 320) }
    ensures { RowBody mask k n octets.now at samples.old samples.new result }
{
    let row = row_at(k);
    let values = values_of(mask, row.low, row.below);
    by_radix(octets, at, n, row.radix, &values, samples)
}
