// The last two of the tie order: fractional-bit (document 02, R-14) "stands just before uncompressed".

ghost use Rattle.std.specs.Prelude.{◌≡◌, true};
ghost use Rattle.write_scan.specs.Looks.{is_mask, FrameIn};
ghost use Rattle.write_choice.specs.Plans.{LastIs};

use crate::plans::Plain;
use first_octet::holds;
use write_fractional::reducing::{bits_of, row_of};
use write_offers::{better, uncompressed_of};

// Nothing is looked at where the set lacks tool 11.
pub fn last_of(frame: &[u8], mask: u8, set: u32) -> Plain
    requires { (FrameIn frame.now) × (is_mask mask ≡ true) }
    ensures { LastIs mask set frame.now result }
{
    let uncompressed = Plain {
        choice: uncompressed_of(frame.len()),
        row: 0,
    };
    if !holds(set, 11) {
        return uncompressed;
    }
    match row_of(frame, mask) {
        Some(row) => {
            let bits = bits_of(row, frame.len());
            let choice = better(uncompressed.choice, 11, true, bits);
            Plain { choice, row }
        }
        None => uncompressed,
    }
}
