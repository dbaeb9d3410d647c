//! The bytes of a source go straight into the sectors of a segment. No call takes memory.
#![tactic(auto)]

mod filling;
mod flat;

pub use filling::fill_sectors;
