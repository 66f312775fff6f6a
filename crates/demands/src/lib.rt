// The demands of the minutes and the promises of the rules page, as theorems about the definitions in `rules`. No function
// stands here: specs/ says what is claimed, proofs/ proves it.
#![tactic(auto)]
