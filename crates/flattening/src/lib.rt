// The parts of a flattened knowledge base, found record by record.
#![tactic(auto)]

pub mod parts;
pub mod sharing;
pub mod trees;
