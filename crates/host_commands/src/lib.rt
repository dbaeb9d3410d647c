//! The commands of `tape` that a host carries out, but `script` and `make`: a cartridge formatted, told, listed, written,
//! read, checked and scrubbed; and the opening of a cartridge, answered by a status.
#![tactic(auto)]

pub mod append;
pub mod check;
pub mod format;
pub mod info;
pub mod list;
mod opening;
pub mod restore;
pub mod room;
pub mod scrub;

pub use opening::{open, open_writable, store_status};
