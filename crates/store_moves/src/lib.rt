// A cut of power, with the one block that a box has: closing up as moves of one greeting each, and a move as chunks, each of which may be
// cut and made again. The caller writes what lasts, in the order told.
#![tactic(auto)]

pub mod calls;
pub mod steps;
