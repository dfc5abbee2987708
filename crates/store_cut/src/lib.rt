// A cut of power loses no greeting: what lasts, the order of writes, and what is promised of them.
// No code: theorems about the definitions alone. They hold of the proved code by its contracts.
#![tactic(auto)]
