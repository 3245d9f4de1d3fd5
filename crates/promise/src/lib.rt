// No running code here: specs/Promise.antt states demand 3, and the other files of specs/ and those of proofs/ prove it.
#![tactic(auto)]
