//! The command `script`: lines carried out one after the other over one mounted cartridge. No call takes memory.
#![tactic(auto)]

mod append;
mod ending;
mod item;
mod limited;
mod line;
mod lose;
mod replies;
mod restore;
mod run;
mod scrub;

pub use run::run_script;
