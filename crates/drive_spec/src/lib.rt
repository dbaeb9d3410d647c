//! The drive's state table: what a drive is in, and what a gap does to it (this project's profile of QIC-117).
#![tactic(auto)]

mod deck;
mod under_way;

pub use deck::{Deck, Motion};
pub use under_way::{Parameter, UnderWay};
