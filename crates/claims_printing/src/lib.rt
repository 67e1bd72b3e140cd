// What `rig` prints for a whole stream: definitions in specs/, theorems in proofs/. There is no code here.
#![tactic(auto)]
