// Tools 1 to 4: what their bodies give is known before a sample is laid, and once their octets are there nothing of them can be refused.
// So they are laid where they are wanted, or, where no samples are wanted, not at all.
ghost use Rattle.std.specs.Prelude.{◌≡◌, ◌≤◌, ◌<◌, ◌++◌, length, take, drop, replicate};
ghost use Rattle.rules.specs.Bits.{bits_of};
ghost use Rattle.rules.specs.Frame.{body};
ghost use Rattle.rules.specs.Calls.{at_start};
ghost use Rattle.read_bodies.specs.Plainly.{PlainIs, laid_by, Lies};

use read_bits::Stop;
use rules::Refusal;

// What a plain body gives: the octets behind the first one, or one sample N times.
#[derive(Clone, Copy)]
pub enum Plain {
    Octets,
    Same(u8),
}

// A plain body, and the bits up to its end. "Uncompressed: N octets", whole. "Plus, minus: nothing." "Constant: one octet, any."
pub fn plain_of(octets: &[u8], tool: u32, n: usize, mask: u8) -> Result<(Plain, usize), Stop>
    requires { (1 ≤ tool) × (tool ≤ 4) × (0 < n) × (n ≤ 320) × (mask < 128) }
    ensures { PlainIs (body mask tool n (bits_of octets.now) 8) octets.now n result }
{
    if tool == 2 {
        return Ok((Plain::Same(law::plus_zero(mask)), 8));
    }
    if tool == 3 {
        return Ok((Plain::Same(law::minus_zero(mask)), 8));
    }
    // The octets of the others are one, and N.
    let behind = if tool == 4 { 1 } else { n };
    if octets.len() <= behind {
        return Err(Stop {
            why: Refusal::Short,
            bit: read_bits::missing(octets, 8),
        });
    }
    if tool == 4 {
        Ok((Plain::Same(octets[1]), 16))
    } else {
        Ok((Plain::Octets, 8 + 8 * n))
    }
}

// The samples of a plain body to the start of some cells; the rest of them stays as lent.
pub fn lay(body: Plain, octets: &[u8], n: usize, cells: &mut [u8])
    requires { Lies body octets.now n (length cells.old) }
    ensures { cells.new ≡ at_start (laid_by body octets.now n) cells.old }
{
    match body {
        Plain::Octets => rules::copy_over(&mut cells[..n], &octets[1..n + 1]),
        Plain::Same(x) => cells[..n].fill(x),
    }
}
