//! The volumes of a cartridge copied onto another one, behind those that stand there alike; and a
//! volume as a source of its bytes.
#![tactic(auto)]

mod comparing;
mod copying;
mod opening;
mod run;
mod source;
mod status;

pub use command_spec::CopyStatus;
pub use run::run_copy;
pub use source::VolumeSource;
pub use status::{exit_status, write_status};
