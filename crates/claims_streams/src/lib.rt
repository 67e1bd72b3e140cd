// What whole streams mean, and that the session's calls give it: definitions in specs/, theorems in proofs/. There is no code here.
#![tactic(auto)]
