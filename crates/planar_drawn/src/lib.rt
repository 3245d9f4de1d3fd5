// No running code here: specs/ and proofs/ prove that the drawing rules accept every order file that the import writes, and that its drawing's net is the file's net.
#![tactic(auto)]
