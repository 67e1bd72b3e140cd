// Rows on the summary of shared counts, worked out by hand: definitions in specs/, and that they hold in proofs/. There is no code here.
#![tactic(auto)]
