//! The host: the dialogue with the drive by trains of step pulses, gaps and the levels of one line (QIC-117; the dialogue
//! is this project's own).
#![tactic(auto)]

mod commands;
mod dialogue;
mod fault;
mod follow;
mod host;
mod modes;
mod places;
mod report;
mod sectors;
mod waits;

pub use drive_states::HandFault;
pub use fault::WriteProtected;
pub use host::Host;
pub use report::Report;
