// "Data range reduction" (001, 7.11.2): a frame's row of table 7-28, and the bits that tool 11 needs for it (document 02, R-14).

ghost use Rattle.std.specs.Prelude.{◌≡◌, ◌+◌, ◌*◌, ◌/◌, ◌≤◌, ◌<◌, length, IfSome};
ghost use Rattle.rules.specs.Fractional.{row_count, group_of, bits_for, body_bits};
ghost use Rattle.rules.specs.Chooses.{row_from, frame_row};
ghost use Rattle.write_scan.specs.Looks.{FrameIn};
ghost use Rattle.write_fractional.specs.Keys.{row_key, row_in};

use law::minus_zero;
use value_rows::{row_at, row_count};
use write_scan::{count_of, extent_of};

// Each row's least, greatest and whether -1 is one of its values, as one number: 512 times the least, twice the greatest, and 1 for -1.
// A match becomes one load, where a const array is made on the stack.
fn key_at(k: usize) -> u32
    requires { k < 12 }
    ensures { result ≡ row_key k }
{
    match k {
        0 => 65794,
        1 => 64771,
        2 => 64768,
        3 => 64770,
        4 => 64769,
        5 => 65283,
        6 => 64258,
        7 => 64773,
        8 => 64772,
        9 => 64261,
        10 => 64260,
        _ => 63748,
    }
}

// The row of a least, a greatest and whether -1 occurs, of the first so many.
fn find_row(least: u8, greatest: u8, minus: bool, count: usize) -> Option<usize>
    requires { count ≤ 12 }
    ensures row { result ≡ row_in (row_from least greatest minus 0 count) }
    ensures below { IfSome result (λ k. k < count) }
{
    let key = 512 * u32::from(least) + 2 * u32::from(greatest) + u32::from(minus);
    // Of `find` the check doesn't learn that no row before passes.
    for k in 0..count {
        if key_at(k) == key {
            return Some(k);
        }
    }
    None
}

// The row of a frame, where it has one. -1 is looked for by counting, sixteen samples to a register.
pub fn row_of(frame: &[u8], mask: u8) -> Option<usize>
    requires { FrameIn frame.now × (mask < 128) }
    ensures row { result ≡ row_in (frame_row mask frame.now) }
    ensures below { IfSome result (λ k. k < row_count (length frame.now)) }
{
    let extent = extent_of(frame, mask);
    let minus = count_of(frame, minus_zero(mask)) != 0;
    find_row(extent.least, extent.greatest, minus, row_count(frame.len()))
}

// Table 7-27: the bits of the body of a row of so many values.
// R' stays a number, since V is reckoned with it: an enum would be turned into it again.
fn body_bits(r: usize, n: usize) -> usize
    requires { (2 ≤ r) × (r ≤ 6) × (n ≤ 320) }
    ensures { result ≡ bits_for r * (n / group_of r) }
{
    match r {
        2 => n,
        3 => 8 * (n / 5),
        4 => 2 * n,
        5 => 12 * (n / 5),
        _ => 13 * (n / 5),
    }
}

// The bits of tool 11's form of row k: the first octet, and the body.
pub fn bits_of(k: usize, n: usize) -> usize
    requires { (k < 12) × (n ≤ 320) }
    ensures { (result ≡ 8 + body_bits k n) × (result ≤ 840) }
{
    let row = row_at(k);
    8 + body_bits(row.radix, n)
}
