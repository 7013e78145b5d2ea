// Knowledge bases to and from OWL 2 functional-style syntax and back, as theorems: all of it is in specs/ and proofs/.
#![tactic(auto)]
