// What runs need with each S, and the least; ceil(log2 D).
#![tactic(auto)]

ghost use Rattle.std.specs.Prelude.{◌≡◌, ◌^◌, ◌≤◌, length};
ghost use Rattle.rules.specs.Bits.{octets_for};
ghost use Rattle.rules.specs.Runs.{rice_forms};
ghost use Rattle.rules.specs.Located.{width_of};
ghost use Rattle.write_measure.specs.Measures.{bits_with, LeastIs};

// An S, and the bits that it needs.
#[derive(Drop)]
pub struct Least {
    pub s: usize,
    pub bits: usize,
}

// The bits of runs with parameter S: their zeros, and for each its one and its S low bits. Counted in 32 bits, so that four go to a
// register.
pub fn run_bits(runs: &[u16], s: usize) -> usize
    requires { (s ≤ 15) × (length runs.now ≤ 321) }
    ensures { (result ≡ length (rice_forms s runs.now)) × (result ≤ 100000000) }
{
    let mut zeros: u32 = 0;
    for &v in runs {
        zeros += u32::from(v >> s);
    }
    zeros as usize + runs.len() * (1 + s)
}

// Of S = 1 to most, the first with fewest bits of the runs and of what goes with S: "the smaller S on a tie". Each run has a one and S low
// bits. Where these alone are as many as the fewest so far, no S from there on needs fewer, since they grow with S; the search stops.
pub fn least_s(runs: &[u16], extra: &[u8; 10], most: usize) -> Least
    requires few { length runs.now ≤ 321 }
    requires le_most { (1 ≤ most) × (most ≤ 9) }
    ensures { LeastIs (bits_with extra.now runs.now) most result }
{
    let mut best = Least {
        s: 1,
        bits: usize::from(extra[1]) + run_bits(runs, 1),
    };
    for s in 2..most + 1 {
        if best.bits <= runs.len() * (1 + s) {
            return best;
        }
        let bits = usize::from(extra[s]) + run_bits(runs, s);
        if bits < best.bits {
            best = Least { s, bits };
        }
    }
    best
}

// ceil(log2 D)
pub fn width_of(d: usize) -> usize
    requires { d ≤ 320 }
    ensures { (result ≡ width_of d) × ((result ≤ 9) × (d ≤ 2 ^ result)) }
{
    if d <= 1 {
        0
    } else {
        (d - 1).ilog2() as usize + 1
    }
}

// "ROOM means the chosen form's octets for a writer": "bits divided by 8, rounded up".
pub fn octets_for(bits: usize) -> usize
    requires { bits ≤ 1000000000 }
    ensures { result ≡ octets_for bits }
{
    bits.div_ceil(8)
}
