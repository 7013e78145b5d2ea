// The theory of elimination: all of it is in specs/ and proofs/.
#![tactic(auto)]
