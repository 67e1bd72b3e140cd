// What is claimed of the summary of shared counts: definitions in specs/, theorems in proofs/. There is no code here.
#![tactic(auto)]
