// The bodies of tools 5 and 6, each into a lent frame buffer; what a refused body leaves there is not looked at.
// Those of 1 to 4 are in `plain`.
// The buffer is an array with a length beside: memory is fixed, and contracts speak of the first n samples and of the rest as lent.
#![tactic(auto)]

pub mod plain;

ghost use Rattle.std.specs.Prelude.{◌≡◌, ◌+◌, ◌^◌, ◌≤◌, ◌<◌, length};
ghost use Rattle.rules.specs.Bits.{bits_of};
ghost use Rattle.rules.specs.Zeros.{binary as bits_as_zeros, plus_minus, zero_of, tree_of, read_tree};
ghost use Rattle.read_bits.specs.Outcomes.{Reads};
ghost use Rattle.read_bodies.specs.Bodied.{FillsBody};

use read_bits::{Outcome, Stop};
use rules::Refusal;

// A zero by its flag: the mark is 1 where minus is the common kind. Plus zero is 128 and the law's mask, minus zero the mask.
fn zero_of(flag: u8, mark: u8, mask: u8) -> u8
    requires { mask < 128 }
    ensures { result ≡ zero_of mask mark flag }
{
    if flag == mark { 128 + mask } else { mask }
}

// "Binary: N bits, 1 is minus zero."
pub fn binary(octets: &[u8], at: usize, n: usize, mask: u8, samples: &mut [u8; 320]) -> Outcome
    requires { (at ≤ 2 ^ 37) × (n ≤ 320) × (mask < 128) × (length samples.old ≡ 320) }
    ensures { FillsBody (bits_as_zeros mask n (bits_of octets.now) at) (at + n)
        samples.old samples.new result }
{
    let common = zero_of(0, 0, mask);
    let other = zero_of(1, 0, mask);
    let (_, next) = read_runs::straight(octets, at, n, samples, common, other)?;
    Ok((n, next))
}

// The code of S, by the table of codes: what the next bits begin with, SHORT where they are not all there.
fn code_of_s(octets: &[u8], at: usize, n: usize) -> Outcome
    requires { at ≤ 2 ^ 37 }
    ensures { Reads (read_tree (tree_of n) (bits_of octets.now) at) 9 (at + 6) result }
{
    let found = s_codes::s_in(n, read_bits::next_bits(octets, at));
    let end = at + found.bits;
    if octets.len() < (end + 7) / 8 {
        Err(Stop {
            why: Refusal::Short,
            bit: read_bits::missing(octets, at),
        })
    } else {
        Ok((found.s, end))
    }
}

// "Tool 6: code of S, then runs over N."
pub fn plus_minus(
    octets: &[u8],
    at: usize,
    n: usize,
    mark: u8,
    mask: u8,
    samples: &mut [u8; 320],
) -> Outcome
    requires { (at ≤ 2 ^ 37) × (n ≤ 320) × (mask < 128) × (length samples.old ≡ 320) }
    ensures { FillsBody (plus_minus mask n mark (bits_of octets.now) at) (at + 106000)
        samples.old samples.new result }
{
    let common = zero_of(0, mark, mask);
    let other = zero_of(1, mark, mask);
    let (s, first) = code_of_s(octets, at, n)?;
    let (_, next) = read_runs::runs(octets, first, n, s, n, samples, common, other)?;
    Ok((n, next))
}
