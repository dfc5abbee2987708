// The size of a box's block is a setting (document 02, R-11 and R-13).
// No code: theorems about the definitions alone.
#![tactic(auto)]
