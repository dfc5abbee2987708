// Marks inside a greeting (document 02, R-8): its samples and its marks, taken as its walk goes.
// What they are stands in specs/Marks.
ghost use Rattle.std.specs.Prelude.{◌^◌, ◌≤◌, ◌<◌, length};
ghost use Rattle.rules.specs.Tools.{most_law};
ghost use Rattle.rules.specs.Walk.{longest};
ghost use Rattle.store_greeting.specs.Taking.{Takes, Keeps};

// "frames 0, 64, 128 and so on", and room for so many frames.
pub const FRAMES_APART: usize = 64;

pub const ROOM: usize = 20480;

// Cells for the marks of 257 times 64 frames: those of a greeting of up to 16,384 octets, and of any that has no more frames.
pub const KEPT_APART: usize = 514;

// A greeting's samples, and the number of its marks.
#[derive(Clone, Copy)]
pub struct Tally {
    pub samples: usize,
    pub marks: usize,
}

// A mark kept, where the lent cells have room for it.
fn keep(marks: &mut [u32], m: usize, at: usize, samples: usize)
    requires { (m < 2 ^ 32) × (at < 2 ^ 32) × (samples < 2 ^ 32) }
    ensures { Keeps m at samples marks.old marks.new }
{
    if 2 * m + 2 <= marks.len() {
        marks[2 * m] = at as u32;
        marks[2 * m + 1] = samples as u32;
    }
}

// A greeting's walk, 64 frames at a time: before each, its mark is taken. Marks that the cells have no room for are counted. None for a
// greeting that is BAD.
// No `for`: the next place is known by what the walk took.
pub fn take(octets: &[u8], law: u32, marks: &mut [u32]) -> Option<Tally>
    requires { (law ≤ most_law) × (length octets.now ≤ longest) }
    ensures { Takes law octets.now marks.old marks.new result }
{
    if octets.len() < 1 {
        return None;
    }
    let mut at = 0;
    let mut samples = 0;
    let mut m = 0;
    while at < octets.len() {
        keep(marks, m, at, samples);
        let walked = walk::walk_on(octets, law, rules::ALL_TOOLS, at, FRAMES_APART, ROOM);
        match walked.end {
            Err(_) => {
                return None;
            }
            Ok(()) => {
                at = walked.place;
                samples += walked.samples;
                m += 1;
            }
        }
    }
    Some(Tally { samples, marks: m })
}
