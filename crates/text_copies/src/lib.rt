// No code: specs/ states that the clean-up prints exactly the audit's copies, and proofs/ proves it.
#![tactic(auto)]
