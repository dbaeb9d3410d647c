//! The vocabulary of a QIC-117 drive: its commands, its error codes, what it refuses, its status word, and both
//! ends of a report, which the drive shows bit by bit on one line and the host collects.
#![tactic(auto)]

mod collect;
mod command;
mod error_code;
mod refusals;
mod report_laws;
mod shift;
mod status;
mod view;

pub use collect::Collector;
pub use command::{Command, command_of};
pub use error_code::ErrorCode;
pub use refusals::refusal;
pub use report_laws::round_trip;
pub use shift::{Shifter, Shown};
pub use status::{StatusBits, status_word};
pub use view::{DriveView, Mode, Motion};
