//! The values that this project's profile sets in the fields of a header.

/// What the data of a header begin with, 55 AA 55 AA (QIC-80-MC), as a little-endian number.
pub const SIGNATURE: u32 = 0xAA55_AA55;

/// The code of a QIC-80 cartridge (Linux ftape headers).
pub const FORMAT_CODE: u8 = 2;

pub const FIRST_HEADER: u16 = 0;

pub const SECOND_HEADER: u16 = 1;

pub const FIRST_DATA: u16 = 2;

/// The greatest cylinder and the greatest sector number of a floppy address.
pub const TRACK_MAXIMUM: u8 = 149;

pub const SECTOR_MAXIMUM: u8 = 128;
