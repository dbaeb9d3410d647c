//! The bytes of a volume go from its segments to a sink as they lie in the workspace; or one segment of it is read there;
//! and the first bytes of sectors go to a sink. No call takes memory.
#![tactic(auto)]

mod extent;
mod form;
mod output;
mod part;
mod piece;
mod sectors;

pub use extent::Extent;
pub use form::Form;
pub use output::give_volume;
pub use part::{PartRead, read_part};
pub use sectors::write_bytes;
