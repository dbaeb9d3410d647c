//! The outside in memory, with chosen failures: for tests, and for what holds where nothing fails.
#![tactic(auto)]

pub mod disk;
mod plan;
pub mod sink;
pub mod source;
pub mod sure_sink;
pub mod tape;

pub use disk::{DiskChange, DiskEntry, MemDisk};
pub use sink::MemSink;
pub use source::{MemSource, SureSource};
pub use sure_sink::SureSink;
pub use tape::{MemTape, Outcome, SureTape};
