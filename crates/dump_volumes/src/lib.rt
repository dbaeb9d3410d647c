//! The volumes of a dump's table, by the slots that its data have: their segments, lengths and lines; and all else that is
//! printed of a dump. No call takes memory. Format codes other than 2 were not tried on a tape.
#![tactic(auto)]

mod checking;
mod info;
mod lengths;
mod listing;
mod slots;
mod status;
mod volume;
mod walk;

pub use checking::{CheckCounts, write_check, write_finding};
pub use info::{ToldHeader, write_info};
pub use lengths::{carried_between, has_bad_range, length_of};
pub use listing::write_list;
pub use status::{exit_status, write_status, write_warning};
pub use volume::Volume;
pub use walk::{VolumeWalk, count_volumes, numbered};
