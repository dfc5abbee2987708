// The chain closed: a frame is written into a lent buffer, read back from what was written, and restored.
// No call of ours asks it: it stands here because document 01 wants a frame by value that travels between crates, and demand 2 of the
// code itself.
#![tactic(auto)]

ghost use Rattle.round_trip.specs.Returned.{Returns};

use rules::{Frame, ReadAnswer, WriteAnswer};

// What the writer answered, and what the reader then answered of the octets written.
#[derive(Drop)]
pub struct Trip {
    pub wrote: WriteAnswer,
    pub read: ReadAnswer,
}

// "Reading back a written frame, by the same law, with at least its tools and enough room, restores it and uses exactly its octets."
pub fn round_trip(frame: Frame, law: u32, set: u32, kept: &mut [u8], sound: &mut [u8]) -> Trip
    ensures { Returns frame law set kept.old kept.new sound.old sound.new result }
{
    let wrote = writer::write_frame(frame, law, set, kept);
    let n = wrote.octets;
    let read = reader::read_frame(&kept[..n], law, set, sound);
    Trip { wrote, read }
}
