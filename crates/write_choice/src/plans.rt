// Plans: the tool, its bits, and what its form needs.

use write_located::Located;
use write_offers::Choice;
use write_zeros::Zeros;

// A form that needs no runs: whole octets by tools 1 to 4, or fractional-bit with the frame's row. The row is read for tool 11 alone.
#[derive(Clone, Copy, Drop)]
pub struct Plain {
    pub choice: Choice,
    pub row: usize,
}

// What is written of a frame of the two zeros: whole octets; or binary, which has its bits and needs the row of flags; or Rice, which
// needs the runs.
#[derive(Drop)]
pub enum ZerosPlan {
    Whole(Choice),
    Binary(usize),
    Rice(Zeros),
}

// What is written of a frame from -2 to 1 that has a 1 or a -2: the last of the tie order, or value-location, which needs the runs of its
// values.
#[derive(Clone, Copy, Drop)]
pub enum NearPlan {
    Last(Plain),
    Values(Located),
}
