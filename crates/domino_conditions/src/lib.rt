// The conditions on dominoes, tested on the flattened knowledge base and a domino set in lent words.
#![tactic(auto)]

pub mod conditions;
pub mod numbers;
