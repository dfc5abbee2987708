// The heading's octets and the marks of a lost frame in code, as specs/Remembered and specs/Items have them: no other code repeats them.
ghost use Rattle.std.specs.Prelude.{◌≡◌, cond, ◌<◌, eqb};
ghost use Rattle.recording.specs.Remembered as remembered;

use law::sample_of;

// The octet that stands for a loss of unknown length (`lost_octet`).
pub const LOST: u8 = 0x01;

// An item from here on is a loss, of the length that is above it (`loss_from`).
pub const LOSS_FROM: u16 = 32768;

// The octets of a heading (`heading_length`).
pub const HEADING: usize = 10;

// "A" or "M".
fn letter_of(law: u32) -> u8
    ensures { result ≡ cond (eqb law 0) 0x41 0x4D }
{
    if law == 0 { 0x41 } else { 0x4D }
}

// "heading with version and law"
pub fn heading_of(law: u32) -> [u8; 10]
    ensures { result ≡ remembered.heading_of law }
{
    let letter = letter_of(law);
    [0x23, 0x21, 0x47, 0x37, 0x31, 0x31, 0x30, letter, 0x0A, 0x00]
}

// 0++, the second level from zero.
pub fn plus_plus(mask: u8) -> u8
    requires { mask < 128 }
    ensures { result ≡ remembered.plus_plus mask }
{
    sample_of(mask, 1)
}

// 0--, that on the other side.
pub fn minus_minus(mask: u8) -> u8
    requires { mask < 128 }
    ensures { result ≡ remembered.minus_minus mask }
{
    sample_of(mask, -2)
}
