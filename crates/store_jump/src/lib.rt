// A jump into a greeting of a store (document 02, R-9): the last mark at or before a sample, and from it the frame that holds it.
#![tactic(auto)]

pub mod jumping;
pub mod seeking;
