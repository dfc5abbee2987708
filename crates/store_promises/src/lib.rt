// What a store keeps over any list of calls (document 02, R-6 and R-8): theorems about the definitions alone.
// No code: theorems about jumps into a store (document 02, R-9), over any list of calls. They hold of the proved code by its contract.
#![tactic(auto)]
