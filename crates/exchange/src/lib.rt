// No running code here: specs/ and proofs/ prove demand 2 over the definitions of rules, demand 3 of whatever calls and files give, and how long the files are.
#![tactic(auto)]
