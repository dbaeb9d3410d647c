//! What is printed about a file that can't be opened, and about one of which a call failed, in a line after that of a status. No
//! answer of a run depends on it.
#![tactic(auto)]

mod error;
mod lines;

pub use lines::{failure_line, named_line, push_failure, refusal_line};
pub use message_text::HintLine;
