// A sound cut into frames, and the frames packed.
#![tactic(auto)]

pub mod cutting;
pub mod packing;
