//! The commands of `tape` by their words: the way to each, and the answers of a run with their lines. The contract of `run`
//! is the headline, over the plain machine of `command_spec` (Machine).
#![tactic(auto)]

mod command;
mod room;
mod status;

pub use command::{run, run_ready};
pub use command_spec::Status;
pub use status::{exit_status, write_status};
