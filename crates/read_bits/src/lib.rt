// Reading at a place of octets, bits highest first: a bit, a number, the zeros before a one, a Rice code.
// Numbers and zeros are read from windows of up to 32 bits, where an octet that is missing counts 0: SHORT is judged beside the window.
// A place is a bit of the octets. What is read, or refused and at which bit, is what the definitions of `rules` say.
#![tactic(auto)]

ghost use Rattle.std.specs.Prelude.{◌≡◌, ◌+◌, ◌*◌, ◌-◌, ◌^◌, ◌/◌, ◌≤◌, ◌<◌, min, max, length, get_or};
ghost use Rattle.std.specs.Int.Count.{count_leading_zeros};
ghost use Rattle.rules.specs.Bits.{bits_of};
ghost use Rattle.rules.specs.Reading.{bit as one_bit, number_from};
ghost use Rattle.rules.specs.Runs.{zeros_from, rice as rice_code};
ghost use Rattle.read_bits.specs.Outcomes.{Reads};
ghost use Rattle.read_bits.specs.Windows.{Ahead, Holds, run_in};

use rules::Refusal;

// What refuses a reading, and its bit.
#[derive(Clone, Copy)]
pub struct Stop {
    pub why: Refusal,
    pub bit: usize,
}

// A number and the next place.
pub type Outcome = Result<(usize, usize), Stop>;

// The bit at a place that the octets have.
pub fn bit_at(octets: &[u8], at: usize) -> usize
    requires { at / 8 < length octets.now }
    ensures { (result ≡ get_or (bits_of octets.now) at 0) × (result < 2) }
{
    (usize::from(octets[at / 8]) >> (7 - at % 8)) % 2
}

// One bit; one that the octets do not have is SHORT.
pub fn bit(octets: &[u8], at: usize) -> Outcome
    requires { at ≤ 2 ^ 40 }
    ensures { Reads (one_bit (bits_of octets.now) at) 1 (at + 1) result }
{
    if octets.len() <= at / 8 {
        Err(Stop {
            why: Refusal::Short,
            bit: at,
        })
    } else {
        Ok((bit_at(octets, at), at + 1))
    }
}

// An octet, or 0 past the last one.
fn octet_at(octets: &[u8], i: usize) -> u8
    ensures { result ≡ get_or octets.now i 0 }
{
    octets.get(i).copied().unwrap_or(0)
}

// Four octets as one number; the compiler reads them at once.
fn four(a: u8, b: u8, c: u8, d: u8) -> u32
    ensures { result ≡ 256 * (256 * (256 * a + b) + c) + d }
{
    16777216 * u32::from(a) + 65536 * u32::from(b) + 256 * u32::from(c) + u32::from(d)
}

// Five octets as one number.
fn five(a: u8, b: u8, c: u8, d: u8, e: u8) -> usize
    ensures { result ≡ 256 * (256 * (256 * (256 * a + b) + c) + d) + e }
{
    256 * four(a, b, c, d) as usize + usize::from(e)
}

// The bits of the five octets from octet i on; an octet that is missing counts 0. Inside the octets none is asked whether it is
// there: every number is read so.
fn window_at(octets: &[u8], i: usize) -> usize
    requires { i ≤ 2 ^ 40 }
    ensures { Ahead 40 (bits_of octets.now) (8 * i) result }
{
    if octets.len() < i + 5 {
        return five(
            octet_at(octets, i),
            octet_at(octets, i + 1),
            octet_at(octets, i + 2),
            octet_at(octets, i + 3),
            octet_at(octets, i + 4),
        );
    }
    five(
        octets[i],
        octets[i + 1],
        octets[i + 2],
        octets[i + 3],
        octets[i + 4],
    )
}

// The first bit that is missing, of some from `at` on.
pub fn missing(octets: &[u8], at: usize) -> usize
    requires { (at ≤ 2 ^ 41) × (length octets.now ≤ 2 ^ 41) }
    ensures { result ≡ max at (8 * length octets.now) }
{
    at.max(8 * octets.len())
}

// A window of 32 bits from a place on; a bit that is missing counts 0.
pub fn next_bits(octets: &[u8], at: usize) -> u32
    requires { at ≤ 2 ^ 41 }
    ensures { Ahead 32 (bits_of octets.now) at result }
{
    ((window_at(octets, at / 8) >> (8 - at % 8)) % 4294967296) as u32
}

// "Reading zeros ends at the first one bit, or at zero N + 1, which is RUN; octets that end sooner are SHORT."
// A window's leading zeros are counted at once. Where it has no one, the last bit that counts tells the two refusals apart.
// No `for`: a turn is a window, and whether another is read is known by it.
pub fn zeros(octets: &[u8], at: usize, n: usize) -> Outcome
    requires { (at ≤ 2 ^ 40) × (n ≤ 320) }
    ensures { Reads (zeros_from at 0 (n + 1) (bits_of octets.now) at) n (at + n + 1) result }
{
    let mut k = 0;
    loop {
        let place = at + k;
        let more = u32::leading_zeros(next_bits(octets, place)) as usize;
        if more < 32 {
            if n < k + more {
                break Err(Stop {
                    why: Refusal::Run,
                    bit: at,
                });
            }
            break Ok((k + more, place + more + 1));
        }
        if octets.len() <= (place + (n - k).min(31)) / 8 {
            break Err(Stop {
                why: Refusal::Short,
                bit: missing(octets, place),
            });
        }
        if n < k + 32 {
            break Err(Stop {
                why: Refusal::Run,
                bit: at,
            });
        }
        k += 32;
    }
}

// The number of the next n bits, from a window of five octets.
pub fn number(octets: &[u8], at: usize, n: usize) -> Outcome
    requires { (at ≤ 2 ^ 40) × (n ≤ 32) }
    ensures { Reads (number_from 0 n (bits_of octets.now) at) (2 ^ n - 1) (at + n) result }
{
    if n == 0 {
        return Ok((0, at));
    }
    let end = at + n;
    if octets.len() < (end + 7) / 8 {
        return Err(Stop {
            why: Refusal::Short,
            bit: missing(octets, at),
        });
    }
    let window = window_at(octets, at / 8);
    let past = 40 - (at % 8 + n);
    Ok(((window >> past) % (1 << n), end))
}

// "k zeros and a 1, then the low S bits of v"; N is the frame's length.
pub fn rice(octets: &[u8], at: usize, n: usize, s: usize) -> Outcome
    requires { (at ≤ 2 ^ 39) × (n ≤ 320) × (s ≤ 9) }
    ensures { Reads (rice_code n s (bits_of octets.now) at) 200000 (at + 330) result }
{
    let (k, next) = zeros(octets, at, n)?;
    let (low, end) = number(octets, next, s)?;
    Ok(((k << s) + low, end))
}

// Eight octets as one number, from those of the first four and of the last four; the compiler reads all eight at once.
fn eight(high: u32, low: u32) -> u64
    ensures { result ≡ 4294967296 * high + low }
{
    4294967296 * u64::from(high) + u64::from(low)
}

// The eight octets from octet i on, all there.
fn whole_word(octets: &[u8], i: usize) -> u64
    requires { (i ≤ 2 ^ 40) × (i + 8 ≤ length octets.now) }
    ensures { Ahead 64 (bits_of octets.now) (8 * i) result }
{
    let high = four(octets[i], octets[i + 1], octets[i + 2], octets[i + 3]);
    let low = four(octets[i + 4], octets[i + 5], octets[i + 6], octets[i + 7]);
    eight(high, low)
}

// The same, where an octet that is missing counts 0: only for the last ones, so that `whole_word` asks no octet whether it is there.
fn part_word(octets: &[u8], i: usize) -> u64
    requires { i ≤ 2 ^ 40 }
    ensures { Ahead 64 (bits_of octets.now) (8 * i) result }
{
    let high = four(
        octet_at(octets, i),
        octet_at(octets, i + 1),
        octet_at(octets, i + 2),
        octet_at(octets, i + 3),
    );
    let low = four(
        octet_at(octets, i + 4),
        octet_at(octets, i + 5),
        octet_at(octets, i + 6),
        octet_at(octets, i + 7),
    );
    eight(high, low)
}

// Up to 64 bits from a place on, highest first: the first `good` of the word are the octets' own.
// No Option: where `good` is 0 it is a word of no bits, and is used like any other.
#[derive(Drop)]
pub struct Held {
    pub word: u64,
    pub good: usize,
}

// The last bits of the octets: out of their last eight, or of all where they are fewer.
fn hold_last(octets: &[u8], at: usize, n: usize) -> Held
    requires { (at ≤ 2 ^ 40) × (32 ≤ n) × (length octets.now < at / 8 + 8) }
    ensures { Holds octets.now at n result.word result.good }
{
    let i = at / 8;
    let size = octets.len();
    if size <= i {
        return Held { word: 0, good: 0 };
    }
    if size < 8 {
        return Held {
            word: part_word(octets, i) << (at % 8),
            good: 8 * (size - i) - at % 8,
        };
    }
    let skip = at - 8 * (size - 8);
    Held {
        word: whole_word(octets, size - 8) << skip,
        good: 64 - skip,
    }
}

// The bits from a place on. None where N is below 32: then 32 zeros may be too many.
pub fn hold(octets: &[u8], at: usize, n: usize) -> Held
    requires { at ≤ 2 ^ 40 }
    ensures { Holds octets.now at n result.word result.good }
{
    let i = at / 8;
    if n < 32 {
        return Held { word: 0, good: 0 };
    }
    if octets.len() < i + 8 {
        return hold_last(octets, at, n);
    }
    Held {
        word: whole_word(octets, i) << (at % 8),
        good: 64 - at % 8,
    }
}

// The zeros before a one in the first 32 bits of a word; 32 where it has no one there.
pub fn zeros_in(word: u64) -> usize
    ensures { (result ≡ count_leading_zeros 32 (word / 2 ^ 32)) × (result ≤ 32) }
{
    u32::leading_zeros((word >> 32) as u32) as usize
}

// The run of a Rice code that stands whole at the start of a word: its zeros, and the low bits below its one.
pub fn run_in(word: u64, zeros: usize, s: usize) -> usize
    requires { (zeros ≡ count_leading_zeros 32 (word / 2 ^ 32)) × (zeros < 32) × (s ≤ 9) }
    ensures { (result ≡ run_in word zeros s) × (result ≤ 20000) }
{
    (zeros << s) + ((word >> (64 - (zeros + (s + 1)))) as usize - (1 << s))
}
