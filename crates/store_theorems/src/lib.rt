// No code: specs/ states what holds of a whole store beside its twin list and its clean-up, and proofs/ proves it.
#![tactic(auto)]
