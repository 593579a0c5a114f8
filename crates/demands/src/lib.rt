// No code: specs/ has the three demands and the requests' theorems as types over what the calls may leave, and proofs/ their proofs.
#![tactic(auto)]
