// The initial domino set: what fails one of the conditions 1, 2, 3 and 7 is taken out, a word at a time.
#![tactic(auto)]

pub mod initial;
pub mod masks;
