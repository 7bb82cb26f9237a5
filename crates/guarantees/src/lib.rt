// What is proved of the definitions alone: see specs/ and proofs/.
#![tactic(auto)]
