// No running code here: specs/ and proofs/ prove that a net which is taken always yields an order.
#![tactic(auto)]
