//! The data of the volume table's segment, found in its collected sectors by the sets that its reading leaves out of
//! account (this project's profile).
#![tactic(auto)]

mod solving;
mod unread;

pub use solving::{data_sectors, solve_first, solve_table};
pub use unread::Unread;
