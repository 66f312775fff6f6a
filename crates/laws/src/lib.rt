// Laws of the definitions in `rules`, for the theorems and for the proofs of the code. No function stands here.
#![tactic(auto)]
