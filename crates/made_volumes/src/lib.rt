//! The command `make`: volumes of made bytes are appended to a mounted cartridge, some of their sectors worn, all
//! scrubbed, and each volume restored and summed. No call takes memory.
#![tactic(auto)]

mod appending;
mod run;
mod summing;
mod wearing;

pub use run::make_volumes;
