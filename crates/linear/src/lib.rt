// 001, section 6.8.1 and 6.8.2: a frame of samples to linear PCM and back.
#![tactic(auto)]

ghost use Rattle.std.specs.Prelude.{◌≤◌, ◌<◌, ℕ, ◌≡◌, map, ◌++◌, length, drop};
ghost use Rattle.std.specs.Int.Signed.{mag};
ghost use Rattle.linear.specs.Equations.{to_pcm, from_pcm, e_of};
ghost use Rattle.linear.specs.Constants.{constants_of, m_of, code_of, level_of};
ghost use Rattle.linear.specs.Calls.{judged, Converts, ToLinear, FromLinear};

use rules::{Ending, Refusal};

// In what the equations of the two laws differ: the mask, the bias, the clip, and what is taken off a code.
#[derive(Clone, Copy, Drop)]
pub struct Constants {
    pub mask: u8,
    pub bias: u32,
    pub top: u32,
    pub step: u32,
}

// 0 is A, all else mu. A call refuses a law above 1 before it comes here.
fn constants_of(law: u32) -> Constants
    ensures { result ≡ constants_of law }
{
    if law == 0 {
        Constants {
            mask: 0x55,
            bias: 0,
            top: 4095,
            step: 0,
        }
    } else {
        Constants {
            mask: 0x7F,
            bias: 33,
            top: 8191,
            step: 16,
        }
    }
}

// e of (6-6) and (6-8): m / 64 is rounded down before 1 is added and the logarithm taken.
fn e_of(m: u32) -> u32
    ensures { result ≡ e_of m }
{
    32 - u32::leading_zeros(m / 64)
}

// m of (6-6) and (6-8): "min {m, top}". A number below 0 is turned by -v - 1 first, and the max becomes a min.
fn m_of(l: Constants, v: i16) -> u32
    requires { l.bias < 64 }
    ensures { result ≡ m_of l (mag v) }
{
    if v < 0 {
        ((-1 - v) as u32 + l.bias).min(l.top)
    } else {
        (v as u32 + l.bias).min(l.top)
    }
}

// 2^4 e + m / 2^(e+1), of (6-6) and (6-8)
fn code_of(m: u32) -> u32
    requires { m < 8192 }
    ensures { result ≡ code_of m }
{
    let e = e_of(m);
    16 * e + (m >> (e + 1))
}

// (6-5) to (6-8): one linear value to its octet.
pub fn octet_of(law: u32, x: i16) -> u8
    ensures { result ≡ from_pcm law x }
{
    let l = constants_of(law);
    let m = m_of(l, x);
    let y = ((code_of(m) - l.step) as u8) ^ l.mask;
    if x < 0 { y } else { 128 + y }
}

// The level of a code by (6-2) and (6-4), the bias still in it: at most 8,191, so 16 bits are enough and quicker.
fn level(c: u16) -> u16
    requires { c < 144 }
    ensures { result ≡ level_of c }
{
    if c < 16 {
        2 * c + 1
    } else {
        (2 * (c % 16) + 33) << (c / 16 - 1)
    }
}

// (6-1) to (6-4): one octet to its linear value.
pub fn linear_of(law: u32, octet: u8) -> i16
    ensures { result ≡ to_pcm law octet }
{
    let l = constants_of(law);
    let y = u16::from((octet ^ l.mask) % 128);
    let c = y + l.step as u16;
    let v = (level(c) - l.bias as u16) as i16;
    if 128 <= octet { v } else { 0 - v }
}

// "Refusals, in order: LAW, LENGTH, ROOM". A frame has 0 or one of the five lengths.
fn judge(law: u32, n: usize, room: usize) -> Ending
    ensures { result ≡ judged law n room }
{
    if rules::MOST_LAW < law {
        return Err(Refusal::Law);
    }
    if n != 0 && !rules::is_length(n) {
        return Err(Refusal::Length);
    }
    if room < n {
        return Err(Refusal::Room);
    }
    Ok(())
}

// What turns each value of a frame into another, by a law.
// A trait and no closure: what is known of a closure speaks of any number, also of such as are no u8 or i16.
pub trait Conversion {
    type From: Copy;

    type To: Copy;

    ghost by: { ℕ → Self.From → Self.To };

    fn by(law: u32, x: Self::From) -> Self::To
        ensures { result ≡ by law x };
}

// Every value of a frame turned, at the start of what is lent.
fn lay<C: Conversion>(frame: &[C::From], law: u32, out: &mut [C::To])
    requires { length frame.now ≤ length out.old }
    ensures { out.new ≡ map (C.by law) frame.now ++ drop (length frame.now) out.old }
{
    for (i, x) in frame.iter().enumerate() {
        out[i] = C::by(law, *x);
    }
}

// A frame converted, or refused: nothing is written then.
pub fn convert<C: Conversion>(frame: &[C::From], law: u32, out: &mut [C::To]) -> Ending
    ensures { Converts law (length frame.now) (map (C.by law) frame.now) out.old out.new result }
{
    judge(law, frame.len(), out.len())?;
    lay::<C>(frame, law, out);
    Ok(())
}

// An octet to its linear value.
struct ToPcm;

impl Conversion for ToPcm {
    type From = u8;

    type To = i16;

    ghost by = { to_pcm };

    fn by(law: u32, octet: u8) -> i16 {
        linear_of(law, octet)
    }
}

// A linear value to its octet.
struct FromPcm;

impl Conversion for FromPcm {
    type From = i16;

    type To = u8;

    ghost by = { from_pcm };

    fn by(law: u32, x: i16) -> u8 {
        octet_of(law, x)
    }
}

// A frame of octets to linear values.
pub fn to_linear(samples: &[u8], law: u32, out: &mut [i16]) -> Ending
    ensures { ToLinear law samples.now out.old out.new result }
{
    convert::<ToPcm>(samples, law, out)
}

// A frame of linear values to octets.
pub fn from_linear(linear: &[i16], law: u32, out: &mut [u8]) -> Ending
    ensures { FromLinear law linear.now out.old out.new result }
{
    convert::<FromPcm>(linear, law, out)
}
