//! The formatting of a cartridge through the host: reference bursts, all segments, the map of the bad sectors, and both
//! header copies (QIC-80-MC and the Linux ftape headers; the order of the steps is this project's profile).
#![tactic(auto)]

mod clearing;
mod fault;
mod formatting;
mod header;
mod marking;
mod track;

pub use fault::FormatFault;
pub use formatting::{FormatReport, format};
