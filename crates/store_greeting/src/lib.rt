// What may be a greeting (document 02, R-6), and its samples and marks, taken as its walk goes (R-8).
#![tactic(auto)]

pub mod greetings;
pub mod marks;
