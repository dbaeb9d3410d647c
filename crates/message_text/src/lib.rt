//! What the programs print for a person: lines of a bounded length, in which the words, paths and file names of others are
//! printable, and what a call asks for that has one word alone. No answer of a run depends on it.
#![tactic(auto)]

mod asked;
mod line;
mod printable;

pub use asked::{Asks, what_is_asked};
pub use line::{HintLine, push_lines, push_printable};
