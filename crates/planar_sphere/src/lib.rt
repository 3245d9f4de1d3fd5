// No running code here: specs/ has the mathematics of nets on the sphere: a net that is taken can be taken apart point by point.
#![tactic(auto)]
