// The theory of judging by labels: all of it is in specs/ and proofs/.
#![tactic(auto)]
