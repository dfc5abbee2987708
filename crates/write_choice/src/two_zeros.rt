// A frame of the two zeros that the look leaves: uncompressed, Rice or binary.

ghost use Rattle.std.specs.Prelude.{◌≡◌, true, ◌&&◌, map, ◌+◌, ◌/◌, ◌≤◌, ◌<◌, length, ltb};
ghost use Rattle.rules.specs.Tools as tools;
ghost use Rattle.rules.specs.Zeros.{flag_of};
ghost use Rattle.write_scan.specs.Looks.{two_zeros, is_mask, FrameIn};
ghost use Rattle.write_scan.specs.Rows.{RowIs};
ghost use Rattle.write_choice.specs.Plans.{Left, plain_by, zeros_by, ZerosPlanned};

use crate::plans::ZerosPlan;
use first_octet::holds;
use law::minus_zero;
use write_offers::{Choice, better, binary_bits, uncompressed_of};
use write_scan::count_of;
use write_scan::row::Row;
use write_zeros::{Zeros, rice_of};

// Whether binary is held and the two zeros are so nearly as many that Rice can't need fewer octets. Let c of the N samples be of the
// rarer zero: there are c runs or more, with N - c places in them. With S = 1 a run v has 2 + v / 2 bits, and twice that is v + 3 or
// more, so twice the bits of all runs are N + 2c or more; before them stand 7 or more. A larger S has 3 or more for each run, and before
// them 5 or more. N is 40 or more. So where the two differ by less than 14, which is where N is below 2c + 14, Rice has more than N
// bits: N / 8 + 1 octets or more, and binary has just these.
fn binary_at_once(set: u32, plus: usize, minus: usize) -> bool
    requires { (plus ≤ 320) × (minus ≤ 320) }
    ensures { result ≡ tools.holds set 5 && ltb minus (plus + 14) && ltb plus (minus + 14) }
{
    holds(set, 5) && minus < plus + 14 && plus < minus + 14
}

// The best of uncompressed and binary, with what its form needs.
fn plain_by(best: Choice) -> ZerosPlan
    ensures { result ≡ plain_by best }
{
    if best.tool == 5 {
        ZerosPlan::Binary(best.bits)
    } else {
        ZerosPlan::Whole(best)
    }
}

// The best of these and Rice.
fn zeros_by(best: Choice, rice: Zeros) -> ZerosPlan
    ensures { result ≡ zeros_by best rice }
{
    if best.tool == 6 {
        ZerosPlan::Rice(rice)
    } else {
        plain_by(best)
    }
}

// "Fewest octets" for a frame of the two zeros that the first look does not settle: from uncompressed on, each tool of the tie order
// takes its place where it is not more. Nothing is measured where the set lacks Rice. Value-location does not apply: no row has the least
// -1 or 0 and the greatest -1 or 0. All samples that are not minus zero are plus zero.
pub fn zeros_plan(frame: &[u8], mask: u8, set: u32, row: &Row, runs: &mut [u16; 321]) -> ZerosPlan
    requires frame_in { (FrameIn frame.now) × (is_mask mask ≡ true) }
    requires left { (Left mask set frame.now) × (two_zeros mask frame.now ≡ true) }
    requires row_is { RowIs (map (flag_of mask 0) frame.now) (length frame.now / 40) row.now }
    ensures { ZerosPlanned mask set frame.now result row.now runs.new }
{
    let n = frame.len();
    let minus = count_of(frame, minus_zero(mask));
    let plus = n - minus;
    let bits = binary_bits(n);
    if binary_at_once(set, plus, minus) {
        return ZerosPlan::Binary(bits);
    }
    let uncompressed = uncompressed_of(n);
    if !holds(set, 6) {
        let five = better(uncompressed, 5, holds(set, 5), bits);
        return plain_by(five);
    }
    let rice = rice_of(n, plus, minus, row, runs);
    let six = better(uncompressed, 6, true, rice.bits);
    let five = better(six, 5, holds(set, 5), bits);
    zeros_by(five, rice)
}
