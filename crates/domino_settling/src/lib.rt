// Settling domino sets in lent words.
#![tactic(auto)]

mod matching;
pub mod settling;
