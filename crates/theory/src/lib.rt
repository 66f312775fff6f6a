// The mathematics of one desk: definitions and laws in proofs/, no functions.
#![tactic(auto)]
