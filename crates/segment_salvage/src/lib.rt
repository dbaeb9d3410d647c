//! What a segment of a dump gives, from the sectors of it that are there: its data, how sure each sector of them is, and what
//! a check says of it.
#![tactic(auto)]

mod case;
mod cells;
mod finding;
mod gathering;
mod header;
pub mod laws;
mod reading;
mod solving;

pub use case::SegmentCase;
pub use finding::{Finding, check_segment};
pub use gathering::data_sectors;
pub use header::read_header;
pub use reading::{SegmentReading, read_segment};
