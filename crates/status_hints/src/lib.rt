//! What the programs over cartridges print after the line of a status: which image it is about, and what to do. No answer of a run
//! depends on it.
#![tactic(auto)]

mod advice;
mod copying;
mod status;

pub use copying::copy_line;
pub use status::{restores, status_line};
