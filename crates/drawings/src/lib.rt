// The theory of interpretations on file, and of checking one against a knowledge base: all of it is in specs/ and proofs/.
#![tactic(auto)]
