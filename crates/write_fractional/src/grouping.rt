// Tool 11 (document 02, R-14; 001, section 7.11.3) as it is written: the digits of a frame, gathered in groups and put by the pen.

ghost use Rattle.std.specs.Prelude.{◌≡◌, ℕ, ◌≤◌, ◌<◌, length, get_or, take};
ghost use Rattle.rules.specs.Samples.{signed};
ghost use Rattle.rules.specs.Fractional.{digit_for, coding, Packs, of_digits};
ghost use Rattle.write_scan.specs.Looks.{FrameIn};
ghost use Rattle.write_bits.specs.Puts.{Able, Puts};
ghost use Rattle.write_fractional.specs.Digits.{body_in, digits_in, groups_in, DigitsFit};

use value_rows::Row;
use write_bits::pen::Pen;

// A sample's digit: (7-77). Both signs are worked out, so that the compiler picks one and does not branch: signs come at random.
fn digit_of(x: u8, mask: u8, low: u8, below: u8) -> u8
    requires { (below ≤ low) × (low ≤ 4) }
    ensures { result ≡ digit_for low below (signed mask x) }
{
    let y = (x ^ mask) % 128;
    let up = below + y;
    let down = low.saturating_sub(y + 1);
    if 128 <= x { up } else { down }
}

// The digits of a frame. Octets, so that sixteen go to a register.
fn digits_of(frame: &[u8], mask: u8, row: Row, digits: &mut [u8; 320])
    requires { (length frame.now ≤ 320) × (row.below ≤ row.low) × (row.low ≤ 4) }
    ensures { take (length frame.now) digits.new ≡ digits_in mask row frame.now }
{
    let low = row.low as u8;
    let below = row.below as u8;
    for (i, &x) in frame.iter().enumerate() {
        digits[i] = digit_of(x, mask, low, below);
    }
}

// V of a group, the first digit the lowest: (7-78).
fn group_of<const G: usize>(group: &[u8; G], r: usize) -> usize
    requires sizes { (G ≤ 5) × (2 ≤ r) × (r ≤ 6) }
    requires by_index { (i : ℕ) → get_or group.now i 0 < r }
    ensures { result ≡ of_digits r group.now }
{
    let mut v = 0;
    for &d in group.iter().rev() {
        v = r * v + usize::from(d);
    }
    v
}

// Digits below r in groups of G, w bits each.
fn put_groups<const G: usize>(pen: &mut Pen, out: &mut [u8], digits: &[u8], w: usize, r: usize)
    requires packs { Packs (coding r G w) (length digits.now) }
    requires by_index { (i : ℕ) → get_or digits.now i 0 < r }
    requires able { Able out.old pen.old (length (groups_in (coding r G w) digits.now)) }
    ensures { Puts out.old pen.old (groups_in (coding r G w) digits.now) out.new pen.new }
{
    let (groups, _) = digits.as_chunks::<G>();
    for group in groups {
        pen.put(out, w, group_of(group, r) as u64);
    }
}

// "R' = 2 and 4: 1 and 2 bits a sample. R' = 3, 5, 6: five samples in 8, 12, 13 bits."
// R' stays the paper's number here too: V is reckoned with it.
pub fn put_body(pen: &mut Pen, out: &mut [u8], frame: &[u8], mask: u8, row: Row)
    requires frame_in { FrameIn frame.now }
    requires digits_fit { DigitsFit mask row frame.now }
    requires able { Able out.old pen.old (length (body_in mask row frame.now)) }
    ensures { Puts out.old pen.old (body_in mask row frame.now) out.new pen.new }
{
    let mut cells = [0u8; 320];
    digits_of(frame, mask, row, &mut cells);
    let digits = &cells[..frame.len()];
    match row.radix {
        2 => put_groups::<1>(pen, out, digits, 1, 2),
        3 => put_groups::<5>(pen, out, digits, 8, 3),
        4 => put_groups::<1>(pen, out, digits, 2, 4),
        5 => put_groups::<5>(pen, out, digits, 12, 5),
        _ => put_groups::<5>(pen, out, digits, 13, 6),
    }
}
