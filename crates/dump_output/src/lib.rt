//! The output of bytes of a salvage: the first of those that segments of a dump give, each segment as it is read, and the map
//! that says how sure each of them is. No call takes memory.
#![tactic(auto)]

mod fault;
pub mod laws;
mod progress;
mod putting;

pub use fault::PutFault;
pub use putting::put_out;
