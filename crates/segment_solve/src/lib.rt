//! The sectors of one segment in a buffer: gathered from their indexes, and solved by the erasure code (QIC-80-MC; the calls
//! are this project's own).
#![tactic(auto)]

mod fault;
mod places;
mod shape;
mod solving;
mod workspace;

pub use fault::SegFault;
pub use places::gather;
pub use shape::count_usable;
pub use solving::solve_collected;
pub use workspace::Workspace;
