// The table's reader as it stood before R-11 and R-14, and what it makes of the tables of today.
// No code: theorems about the definitions alone.
#![tactic(auto)]
