// What is sought in a greeting (document 02, R-9): the last mark at or before a sample, and from it the frame that holds the sample.
// What they are stands in specs/Seeking.
ghost use Rattle.std.specs.Prelude.{◌≡◌, ◌+◌, ◌*◌, ◌^◌, ◌≤◌, ◌<◌, length, get_or};
ghost use Rattle.store_notes.specs.Cells.{marks_in};
ghost use Rattle.store_jump.specs.Seeking.{seek, from_mark, middle, last_mark};
ghost use Rattle.store_jump.specs.Halves.{half_of};

// The frame that holds a sample, its octet place, and the sample's place in it.
pub type Sought = Option<(usize, usize, usize)>;

// Room for the frames between two marks.
const ROOM: usize = 20480;

// Marks from `low` on and below `high`.
#[derive(Drop)]
pub struct Span {
    pub low: usize,
    pub high: usize,
}

// "the last mark at or before it" is in one half of the marks.
fn half(marks: &[u32], low: usize, high: usize, sample: usize) -> Span
    requires { (low + 1 < high) × (2 * high ≤ length marks.now) }
    ensures { result ≡ half_of (get_or marks.now (2 * middle low high + 1) 0) sample low high }
{
    let mid = low + (high - low) / 2;
    let before = marks[2 * mid + 1] as usize;
    if before <= sample {
        return Span { low: mid, high };
    }
    Span { low, high: mid }
}

// "the last mark at or before it", of the marks that lie in these cells, by halving.
// Not by `partition_point`: it asks a sorted slice, and the marks of a lent table need not rise; `last_from` of specs halves too.
pub fn last_mark(marks: &[u32], m: usize, sample: usize) -> usize
    requires { (1 ≤ m) × (2 * m ≤ length marks.now) }
    ensures { (result ≡ last_mark (marks_in m marks.now) sample) × (result < m) }
{
    let mut low = 0;
    let mut high = m;
    while low + 1 < high {
        let s = half(marks, low, high, sample);
        low = s.low;
        high = s.high;
    }
    low
}

// The frame that holds a sample, of the 64 frames from a mark on: frame `first` stands at `at`, with so many samples before it.
// A `while`, as the walk has it: the place and the room go on by what was passed.
pub fn seek_on(
    octets: &[u8],
    law: u32,
    at: usize,
    first: usize,
    before: usize,
    sample: usize,
) -> Sought
    requires { (first < 2 ^ 60) × (before < 2 ^ 60) × (before ≤ sample) }
    ensures { result ≡ seek sample first before (from_mark law octets.now at).frames }
{
    let mut samples = [0u8; 320];
    let mut place = at;
    let mut left = ROOM;
    let mut passed = before;
    let mut n = 0;
    while n < store_greeting::marks::FRAMES_APART && place < octets.len() {
        let r = walk::pass(octets, law, rules::ALL_TOOLS, place, left, &mut samples);
        match r.end {
            Err(_) => {
                return None;
            }
            Ok(()) => {
                if sample < passed + r.len {
                    return Some((first + n, place, sample - passed));
                }
                place += r.octets;
                left -= r.len;
                passed += r.len;
                n += 1;
            }
        }
    }
    None
}
