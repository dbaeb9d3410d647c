//! Files as streams, over any disk: a file that is read from its begin on, and one that is written from its begin on.
#![tactic(auto)]

mod sink;
mod source;

pub use sink::FileSink;
pub use source::FileSource;
