//! What the programs over cartridges in image files share: the words of their command lines, and a unit over an image.
#![tactic(auto)]

mod arguments;
mod unit;

pub use arguments::{Arguments, read_arguments};
pub use unit::{Closed, ImageUnit, NO_IMAGE, close_unit, open_unit};
