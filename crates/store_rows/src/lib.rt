// The greetings of a store as a list in lent cells (document 02, R-6): found, counted and judged; a row put in, a row taken out; all
// closed up from 0.
#![tactic(auto)]

pub mod closing;
pub mod placing;
pub mod rows;
