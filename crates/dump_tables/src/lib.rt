//! The volume table of a dump: where it is, its data, and whether they are sure.
#![tactic(auto)]

mod finding;
mod place;

pub use finding::find_table;
pub use place::TablePlace;
