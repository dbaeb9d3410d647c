//! The data of a dump's volume table, from the sectors of its segment.
#![tactic(auto)]

mod reading;
mod solving;

pub use reading::read_table;
