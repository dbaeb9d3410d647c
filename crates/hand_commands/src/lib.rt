//! The commands of `tape` that no host carries out: those of a person's hand, and `pulses`; and how a command ends that
//! reads no input. No call takes memory.
#![tactic(auto)]

pub mod defect;
mod lines;
pub mod lose;
pub mod new;
pub mod protect;
pub mod pulses;
pub mod upgrade;

pub use lines::printed;
pub use pulses::{PulseFault, run_pulses};
