//! The bad sector map: which sectors of each segment are bad, and what that leaves of the segment.
#![tactic(auto)]

mod map;
mod places;
mod words;

pub use map::BadMap;
pub use places::index_at;
pub use words::{MAPPED, word_at};

/// The fewest usable sectors with which a segment carries data.
pub const FEWEST: u8 = 4;
