//! A segment's sectors through the drive: all usable ones read, solved and written, or some of them written (QIC-80-MC;
//! the calls are this project's own).
#![tactic(auto)]

mod places;
mod reading;
mod writing;

pub use reading::{collect, read_segment};
pub use segment_solve::{SegFault, Workspace};
pub use writing::{write_sectors, write_segment};
