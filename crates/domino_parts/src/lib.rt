// Sets of parts as words, a bit a part: the parts of a kind, on a role set, with a filler in a label; tables of them.
#![tactic(auto)]

pub mod tables;
pub mod words;
