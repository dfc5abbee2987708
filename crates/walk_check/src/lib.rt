// A stream judged with no room for its samples: "as g7110_walk with room never short".
#![tactic(auto)]

ghost use Rattle.walk.specs.Counting.{Counts};
ghost use Rattle.walk_check.specs.Check.{check_of};

use rules::WalkAnswer;

// No frame has more samples, and each has an octet: so much room for each octet is never short.
const MOST_SAMPLES: usize = 320;

// A walk that keeps no samples: "LAW, SET, LONG, then the frame's".
pub fn check(octets: &[u8], law: u32, set: u32) -> WalkAnswer
    ensures { Counts (check_of octets.now law set) result }
{
    match rules::guard_stream(law, set, octets.len()) {
        Err(why) => WalkAnswer {
            end: Err(why),
            frames: 0,
            octets: 0,
            samples: 0,
            place: 0,
            bit: 0,
        },
        Ok(()) => walk::walk_on(
            octets,
            law,
            set,
            0,
            octets.len(),
            MOST_SAMPLES * octets.len(),
        ),
    }
}
