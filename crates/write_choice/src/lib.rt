// "What the writer chooses": the tool whose form has fewest octets, and on equal octets the first of the tie order. A plan says which it
// is, its bits, and what its form needs; flags and runs are lent beside it. A frame is looked at once (`settle`). What that look settles
// is whole octets; what it leaves is of the two zeros (`two_zeros`), or has a 1 or a -2 (`near`); or it has other samples near 0, and only
// the last two of the tie order are left (`last`).
#![tactic(auto)]

pub mod last;
pub mod near;
pub mod plans;
pub mod settle;
pub mod two_zeros;
