// The theory of models and dominoes, up to the canonical set: all of it is in specs/ and proofs/.
#![tactic(auto)]
