// The bench table of document 01, its exact cases, and the proofs that the definitions compute them. No code.
#![tactic(auto)]
