//! The map of a rescued medium: the text of GNU ddrescue's mapfile, read into a mask of sectors and written from one. No
//! call takes memory.
#![tactic(auto)]

mod ahead;
mod form;
pub mod laws;
mod line;
mod mask;
mod reading;
mod scan;
mod spelling;
mod text;
mod words;

pub use ahead::{Ahead, next_byte};
pub use form::Block;
pub use mask::{clear, mark};
pub use reading::{MapError, read_map};
pub use text::{block_line, write_map};
