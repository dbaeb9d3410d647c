//! A cartridge in an image file: a tape over any disk, written in an order in which a stop at any moment leaves what
//! its calls promise.
#![tactic(auto)]

pub mod cells;
mod filling;
mod formatting;
mod layout;
pub mod making;
mod reading;
mod renewing;
mod segment;
mod several;
mod synced;
mod tape;
mod upgrading;
mod wanted;
mod writing;

pub use layout::{CELL_LEN, CELLS_LEN, HEAD_LEN};
pub use tape::ImageTape;
