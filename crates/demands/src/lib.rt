// What the definitions promise, in the words of the three demands and of 01's table of answers. There is no code here: specs/ says it, proofs/ shows it.
#![tactic(auto)]
