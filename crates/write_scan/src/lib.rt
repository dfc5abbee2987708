// A frame looked at in one pass: what its samples have in common, how many are a value, and which are not, as a row of flags.
#![tactic(auto)]

ghost use Rattle.std.specs.Prelude.{◌≡◌, ◌/◌, ◌%◌, ◌≤◌, ◌<◌, length, get_or};
ghost use Rattle.write_scan.specs.Rows.{Gathers, RowIs};
ghost use Rattle.rules.specs.Samples.{signed, on_line};
ghost use Rattle.write_scan.specs.Looks.{marks_of, SpreadIs, ExtentIs, count_is};

pub mod row;

use row::Row;

// What the samples of a frame have in common, each with the law's mask taken off: the bits that any sets, and those that all set.
#[derive(Clone, Copy, Drop)]
pub struct Spread {
    pub any: u8,
    pub all: u8,
}

// What a frame's samples have in common, looked at once. Of a sample with the mask taken off, the low seven bits are how far it is from its
// zero, so those that any sets tell a frame of the two zeros and a frame from -2 to 1; and where no bit differs all samples are equal.
// Octets, sixteen to a register, and three steps for each register.
pub fn spread_of(frame: &[u8], mask: u8) -> Spread
    requires some { 1 ≤ length frame.now }
    requires mask_bound { mask < 128 }
    ensures { SpreadIs mask (get_or frame.now 0 0) frame.now result }
{
    let mut any: u8 = 0;
    let mut all: u8 = 255;
    for &x in frame {
        let y = x ^ mask;
        any |= y;
        all &= y;
    }
    Spread { any, all }
}

// The least and the greatest of a frame's samples, as places on the line of signed numbers, where 0 is at 128.
#[derive(Drop)]
pub struct Extent {
    pub least: u8,
    pub greatest: u8,
}

// A sample's place on that line.
fn line_of(x: u8, mask: u8) -> u8
    ensures { result ≡ on_line (signed mask x) }
{
    let y = (x ^ mask) % 128;
    if 128 <= x { 128 + y } else { 127 - y }
}

// The least and the greatest of a frame's samples, looked at once; sixteen to a register.
pub fn extent_of(frame: &[u8], mask: u8) -> Extent
    ensures { ExtentIs mask frame.now result }
{
    let mut least: u8 = 255;
    let mut greatest: u8 = 0;
    for &x in frame {
        let p = line_of(x, mask);
        least = least.min(p);
        greatest = greatest.max(p);
    }
    Extent { least, greatest }
}

// How many of a frame's samples are x. Counted in 16 bits, so that eight go to a register.
pub fn count_of(frame: &[u8], x: u8) -> usize
    requires { length frame.now ≤ 320 }
    ensures { (result ≡ count_is x frame.now) × (result ≤ 320) }
{
    let mut count: u16 = 0;
    for &y in frame {
        count += u16::from(y == x);
    }
    usize::from(count)
}

// The flags of 40 samples as a word, the first one highest: 1 where a sample is not x.
pub fn word_of(chunk: &[u8; 40], x: u8) -> u64
    ensures { Gathers (marks_of x 0 1 chunk.now) 40 result }
{
    let mut v: u64 = 0;
    for &y in chunk {
        v = 2 * v + u64::from(y != x);
    }
    v
}

// A row of flags: 1 where a sample is not x.
pub fn others(frame: &[u8], x: u8) -> Row
    requires { (length frame.now ≤ 320) × (length frame.now % 40 ≡ 0) }
    ensures { RowIs (marks_of x 0 1 frame.now) (length frame.now / 40) result }
{
    let mut words = [0u64; 8];
    let (chunks, _) = frame.as_chunks::<40>();
    for (i, chunk) in chunks.iter().enumerate() {
        words[i] = word_of(chunk, x);
    }
    Row {
        words,
        count: chunks.len(),
    }
}
