//! The words of the command line of `tape_salvage`: a command of `clap` with the dump, options for what is read beside it, and
//! subcommands for what is asked of it.
#![tactic(auto)]

mod asking;
mod command;
mod options;
mod reading;

pub use asking::{Refusal, SalvageWords, read_salvage_words};
