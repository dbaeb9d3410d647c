//! The segments of a cartridge are looked at, and sectors that can't be read, or that hold wrong bytes, written again where
//! they can be found. No call takes memory.
#![tactic(auto)]

mod lines;
mod locating;
mod looking;
mod mending;
mod progress;
mod report;
mod scrubbing;
mod searching;
mod volumes;

pub use locating::Unread;
pub use report::ScrubReport;
pub use scrubbing::scrub_segments;
pub use searching::{Searched, search_segment};

/// Segments with a copy of the header, the first of a cartridge.
const HEADER_COPIES: u32 = 2;
