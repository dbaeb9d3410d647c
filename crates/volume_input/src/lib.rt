//! The bytes of a source go into the free segments of a cartridge, segment by segment as they come. No call takes memory.
#![tactic(auto)]

mod filling;
mod input;
mod length;
mod segment;
mod written;

pub use input::take_volume;
pub use length::{Length, Wanted};
pub use written::Written;
