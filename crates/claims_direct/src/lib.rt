// What is demanded of the direct call, and that it is met: definitions in specs/, theorems in proofs/. There is no code here.
#![tactic(auto)]
