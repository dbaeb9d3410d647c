//! A dump opened: from the files that are read to what is known of it, its header and masks; or why it is refused.
#![tactic(auto)]

mod files;
mod header;
mod opened;
mod opening;
mod size;
mod texts;

pub use files::DumpFiles;
pub use opened::{OpenDump, OpenError, Opened};
pub use opening::open_dump;
