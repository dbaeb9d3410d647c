//! A volume's entry in the table.

use qic_base::Name;

/// What a slot of the volume table tells of a volume (Linux ftape headers). The other bytes of a
/// slot are not read.
#[derive(Clone, Copy, Debug, PartialEq, Eq)]
pub struct Entry {
    /// The first segment that carries the volume.
    pub start: u16,
    /// The last segment that carries it.
    pub end: u16,
    /// The description, 44 bytes.
    pub name: Name,
    /// The date word, as the volume's writer stored it.
    pub date: u32,
    /// Bit 0 vendor specific, bit 1 multi-cartridge.
    pub flags: u8,
    /// The place of this cartridge in a set, from 1 on.
    pub sequence: u8,
    /// The size of the directory, in bytes.
    pub directory: u32,
    /// The size of the data, in bytes.
    pub size: u64,
}
