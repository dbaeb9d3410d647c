//! What is promised of each command: its words and lines, what it does to a cartridge, what it prints and answers, and the
//! promises of a run. Definitions alone, with the public types that they name.
#![tactic(auto)]

mod copy_status;
mod depth;
mod line;
mod refusal;
mod status;
mod verdict;
mod words;

pub use copy_status::CopyStatus;
pub use depth::Depth;
pub use line::Line;
pub use refusal::Refusal;
pub use status::Status;
pub use verdict::Verdict;
pub use words::Words;

/// The most lines of an input, before the line `end`: trains of `pulses`, or lines of a script.
pub const MOST_LINES: u32 = 65536;
