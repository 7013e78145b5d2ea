// Judging by labels: a set of live labels stands for the dominoes that it spans, and no domino is looked at until these are written.
#![tactic(auto)]

mod asking;
mod fitting;
pub mod judging;
mod live;
mod opening;
mod witnesses;
mod writing;
