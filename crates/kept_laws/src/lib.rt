// No running code here, and no crate uses it: specs/ keeps laws that proofs of this repository once stood on, and that hold still.
// Each file is named after the crate from which its laws come.
#![tactic(auto)]
