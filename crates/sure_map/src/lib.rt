//! The map of an output, written as its bytes come: a line of GNU ddrescue's mapfile for each longest run of bytes with one
//! mark; and how many bytes have each mark. No call takes memory.
#![tactic(auto)]

mod map;
mod run;
mod tally;

pub use map::SureMap;
