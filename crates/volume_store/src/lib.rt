//! A formatted cartridge put in and mounted: its header in force, its map of bad sectors and its list of volumes, read
//! through the host; and its volumes listed, appended, restored, read by parts and scrubbed. Its working objects are all
//! asked for before.
#![tactic(auto)]

mod appended;
mod appending;
mod listing;
mod looking;
mod opening;
mod room;
mod store;
mod volume_text;

pub use appended::Appended;
pub use listing::write_list;
pub use looking::find_room;
pub use opening::{open, start};
pub use room::Room;
pub use segment_mending::ScrubReport;
pub use store::Store;
pub use volume_output::Form;
pub use volume_text::appended_text;
