//! What is printed about words that are those of no command, in a line after that of the status: which word is wrong, and why; the
//! help and the version of the program; and which commands make an image. No answer of a run depends on it.
#![tactic(auto)]

mod creating;
mod fault;
mod forms;
mod help;
mod hint;

pub use creating::creates;
pub use fault::WordFault;
pub use help::{what_is_asked, write_help, write_version};
pub use hint::{Hint, hint_of, write_hint};
pub use message_text::Asks;
