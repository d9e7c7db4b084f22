// The promises: each demand as a theorem, in proofs/. There is no code here.
#![tactic(auto)]
