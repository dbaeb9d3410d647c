//! The outside of the tape program, and the words that every layer shares.
#![tactic(auto)]

pub mod acts;
mod date;
mod disk;
mod field;
mod foreign;
pub mod laws;
mod lost_set;
mod memory;
mod name;
mod one_sector;
mod sectors;
mod sink;
mod source;
mod store_fault;
mod tape;
mod write;

pub use date::{BadDate, stamp};
pub use disk::{Disk, DiskFailed};
pub use field::{put_bytes, read_u16, read_u32, read_u64, write_u16, write_u32, write_u64};
pub use foreign::ForeignField;
pub use lost_set::LostSet;
pub use memory::{NoMemory, push_within};
pub use name::Name;
pub use one_sector::{read_sector, write_sector};
pub use sectors::are_sectors;
pub use sink::{Sink, SinkFailed};
pub use source::{Source, SourceFailed};
pub use store_fault::StoreFault;
pub use tape::{SectorRead, SectorView, SectorWrite, SectorsRead, Tape, TapeFailed, TapeInfo};
pub use write::write_text;

/// The greatest number of segments per track; the least is 3 (this project's profile).
pub const LONGEST: u16 = 246;

/// The tracks of each cartridge (QIC-80).
pub const TRACKS: u32 = 28;

/// The most segments of a cartridge.
pub const MOST_SEGMENTS: usize = TRACKS as usize * LONGEST as usize;

/// The sectors of each segment (QIC-80).
pub const SECTORS: u8 = 32;

/// The mask of all sectors of a segment: a bit for each, the lowest that of sector 0.
pub const WHOLE: u32 = u32::MAX;

/// The bytes of each sector (QIC-80).
pub const SECTOR: usize = 1024;

/// What a sector holds.
pub type Sector = [u8; SECTOR];
