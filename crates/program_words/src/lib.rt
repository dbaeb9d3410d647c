//! The words of the command lines of `pulse_trace`, `tape_export` and `tape_import`: commands of `clap`, the first with one
//! option, the gap; the others with an image, an option for the map of its dump, and one for the segments per track of a
//! cartridge that is imported.
#![tactic(auto)]

mod command;
mod command_line;
mod export_words;
mod gap;
mod import_words;
mod option;
mod refusal;

pub use command_line::read_command_line;
pub use export_words::{ExportWords, read_export_words};
pub use gap::{BadGap, read_gap};
pub use import_words::{ImportWords, read_import_words};
pub use refusal::{Told, tell_refusal};
