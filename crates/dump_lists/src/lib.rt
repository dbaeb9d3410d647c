//! The lists that lie beside a dump: of the segments that it lacks, and of bad sectors. Text lines of decimal numbers, read
//! into a mask of bits. No call takes memory.
#![tactic(auto)]

mod line;
mod names;
mod numbers;
mod reading;

pub use names::SEGMENTS;
pub use reading::{ListError, read_bad, read_missing};
