// Fractional-bit, tool 11 (document 02, R-14): a frame's row of values, and its samples put in groups.
#![tactic(auto)]

pub mod grouping;
pub mod reducing;
