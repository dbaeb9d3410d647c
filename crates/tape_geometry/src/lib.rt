//! Segments, tracks and floppy addresses: where a sector of the tape lies, and by which floppy
//! address a host asks for it (QIC-80-MC).
#![tactic(auto)]

mod geometry;
pub mod laws;

pub use geometry::{BadLength, FloppyAddr, Geometry};
