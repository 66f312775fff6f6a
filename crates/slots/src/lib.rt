// No function stands here: laws of the plan slot by slot over whole stretches of slots.

#![tactic(auto)]
