//! Real files and standard streams as the outside of the tape program. They tell nothing of what they hold: this is the
//! edge at which the system is trusted.
#![tactic(auto)]

mod disk;
mod failure;
mod file;
mod image;
mod links;
mod null;
mod opened;
mod retry;
mod streams;

pub use disk::FileDisk;
pub use failure::Failure;
pub use file::{DiskFile, ImageFile};
pub use image::{IfMissing, NoImage, is_standard_error, open_image, open_to_read};
pub use null::NullStreams;
pub use streams::{StderrSink, StdinSource, StdoutSink};
