// Masters of signed 16-bit values: a frame of samples to a master and back, "as to_linear and from_linear with the shift of the tools".
#![tactic(auto)]

ghost use Rattle.std.specs.Prelude.{◌≡◌};
ghost use Rattle.std.specs.Int.Signed.{shr_z};
ghost use Rattle.linear_masters.specs.Masters.{unit_of, sample_for, value_for, ToMaster, FromMaster};

use linear::Conversion;
use rules::Ending;

// Brought to the law's scale, rounded down: "arithmetic right on the way in".
fn scaled(law: u32, v: i16) -> i16
    ensures { result ≡ shr_z v (unit_of law) }
{
    if law == 0 { v >> 3 } else { v >> 2 }
}

// A value's sample.
pub fn sample_for(law: u32, v: i16) -> u8
    ensures { result ≡ sample_for law v }
{
    linear::octet_of(law, scaled(law, v))
}

// A sample's value, in 16 bits again: "left on the way out".
pub fn value_for(law: u32, octet: u8) -> i16
    ensures { result ≡ value_for law octet }
{
    let v = linear::linear_of(law, octet);
    if law == 0 { v * 8 } else { v * 4 }
}

// An octet to its value.
struct Raising;

impl Conversion for Raising {
    type From = u8;

    type To = i16;

    ghost by = { value_for };

    fn by(law: u32, octet: u8) -> i16 {
        value_for(law, octet)
    }
}

// A value to its octet.
struct Lowering;

impl Conversion for Lowering {
    type From = i16;

    type To = u8;

    ghost by = { sample_for };

    fn by(law: u32, v: i16) -> u8 {
        sample_for(law, v)
    }
}

// A frame of octets to a master's values. "Refusals, in order: LAW, LENGTH, ROOM".
pub fn to_master(samples: &[u8], law: u32, out: &mut [i16]) -> Ending
    ensures { ToMaster law samples.now out.old out.new result }
{
    linear::convert::<Raising>(samples, law, out)
}

// A master's values to a frame of octets.
pub fn from_master(master: &[i16], law: u32, out: &mut [u8]) -> Ending
    ensures { FromMaster law master.now out.old out.new result }
{
    linear::convert::<Lowering>(master, law, out)
}
