// What the demands ask of the exports that C and Rust call, and the theorems that it is met: definitions in specs/, theorems in proofs/. There is no code here.
#![tactic(auto)]
