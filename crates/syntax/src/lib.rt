// Knowledge bases as the definitions have them: all of it is in specs/ and proofs/.
#![tactic(auto)]
