//! The drive: its record, what a gap does to it, and its sectors (this project's profile of QIC-117).
#![tactic(auto)]

mod any_drive;
pub mod deck;
mod dialogue;
mod drive;
pub mod effects;
mod fault;
mod hand;
pub mod laws;
mod obey;
mod sectors;
mod states;
mod transitions;
pub mod under_way;
mod unit;

pub use drive::{Drive, ReferenceFailed, Refused, Ticked};
pub use drive_spec::{Deck, Motion, Parameter};
pub use fault::{FdcFault, HandFault};
pub use states::{
    EntersFormat, EntersPrimary, EntersVerify, Format, LoadPoint, Primary, Reads, Resets, Seeking,
    Skips, Standing, State, Verify,
};
pub use tape_geometry::FloppyAddr;
pub use under_way::{parameter_trains, report_word};
pub use unit::Unit;
