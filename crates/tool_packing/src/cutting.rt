// A sound cut into frames: each next one is as long as the frame length and the sound left allow. And a sound filled up, so that it can be
// cut.
ghost use Rattle.std.specs.Prelude.{◌+◌, ◌≤◌, ◌≡◌, length};
ghost use Rattle.tool_packing.specs.Cuts.{largest_up_to, next_length, last_end, to_fill, FillsUp};
ghost use Rattle.tool_packing.specs.SoundParts.{goes_on, number_for};

use rules::{Ending, Refusal};

// Of the five lengths the largest that is at most `most`; 0 where none is, as the definitions of the cuts have it.
#[tactic(auto, unfolding(crate::specs::Cuts::largest_up_to))]
fn largest_up_to(most: usize) -> usize
    ensures { result ≡ largest_up_to most }
{
    match most {
        320.. => 320,
        240.. => 240,
        160.. => 160,
        80.. => 80,
        40.. => 40,
        _ => 0,
    }
}

// The next frame's length: at most the frame length and at most the sound left.
// 0 where no length fits: the theorems `cuts-parts` and `pack-walk` speak of it so.
pub fn next_length(n: usize, left: usize) -> usize
    ensures { result ≡ next_length n left }
{
    largest_up_to(n.min(left))
}

// How a sound ends with so many octets left that no length fits.
#[tactic(auto, unfolding(crate::specs::Cuts::last_end))]
pub fn last_end(left: usize) -> Ending
    ensures { result ≡ last_end left }
{
    match left {
        0 => Ok(()),
        _ => Err(Refusal::Length),
    }
}

// Plus zeros after the first `len` octets, up to the next multiple of 40, which every end of a sound can be cut into. Answers how many.
pub fn fill_up(sound: &mut [u8], len: usize, law: u32) -> usize
    requires { len + to_fill len ≤ length sound.old }
    ensures { FillsUp len law sound.old sound.new result }
{
    let plus = law::plus_zero(law::mask_of(law));
    let more = (40 - len % 40) % 40;
    sound[len..len + more].fill(plus);
    more
}

// A part that is full may have more after it; after a refusal nothing matters.
pub fn may_go_on(end: Ending, count: usize) -> bool
    ensures { result ≡ goes_on end count }
{
    end.is_ok() && count == 61440
}

// The room is the longest stream, so ROOM is LONG here.
pub fn number_for(end: Ending) -> u32
    ensures { result ≡ number_for end }
{
    match rules::number_of(end) {
        4 => 13,
        number => number,
    }
}
