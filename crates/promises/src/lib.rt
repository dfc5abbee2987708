// No code: theorems about the definitions of `rules`, in proofs/. They hold of the proved code by its contracts.
#![tactic(auto)]
