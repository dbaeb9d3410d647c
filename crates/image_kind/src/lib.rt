//! What a file is that is opened as an image: an image, one that may be taken for an image to be made, or something else, which
//! no command is to write over.
#![tactic(auto)]

mod free;
mod opened;

pub use free::is_free;
pub use opened::{NoTape, open_tape};
