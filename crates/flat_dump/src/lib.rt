//! The flat dump of a cartridge, its sectors one behind the other, and the map of those that hold bytes. No call takes
//! memory.
#![tactic(auto)]

mod cells;
mod exporting;
mod importing;
pub mod laws;
mod segment;

pub use exporting::{ExportError, export};
pub use importing::{ImportError, Imported, import};
