//! What is asked of a dump, answered: over its opened files, to a sink of the output and one of the map of the output.
#![tactic(auto)]

mod checking;
mod command;
mod ending;
mod pieces;
mod room;
mod run;
mod telling;
mod volume;

pub use ending::{Cut, Ending};
pub use room::SalvageRoom;
pub use run::answer_dump;
