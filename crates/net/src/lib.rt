// No running code here: specs/ has the invariant that adding a point keeps, over abstract nets.
#![tactic(auto)]
