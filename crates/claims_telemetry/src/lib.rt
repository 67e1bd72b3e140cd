// What is claimed of packed telemetry frames, and that it is met: definitions in specs/, theorems in proofs/. There is no code here.
#![tactic(auto)]
