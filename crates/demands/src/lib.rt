// The three demands, over what the functions of the face promise: specs/Demands.antt states them, proofs/ shows them. No code that runs.
#![tactic(auto)]
