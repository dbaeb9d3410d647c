//! A cartridge checked: each segment that a scrub looks at is read and told of, and nothing is written. No call takes
//! memory.
#![tactic(auto)]

mod checking;
mod fault;
mod lines;
mod looking;
mod tally;
mod verdicts;
mod volumes;

pub use checking::check;
pub use fault::CheckFault;
pub use tally::Tally;
