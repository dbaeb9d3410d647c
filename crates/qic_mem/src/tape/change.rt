//! The changes that calls of a tape in memory make.

use qic_base::Sector;

/// A change that a call of a tape is to make, with all that it was given.
#[derive(Drop)]
pub(crate) enum TapeChange {
    /// A segment, the mask of its sectors that are written, and an entry for each of the 32.
    WriteSectors(u32, u32, [Sector; 32]),
    FormatSegment(u32),
    SetReferenced,
    SetProtected(bool),
    Renew(u16),
    Wear(u32, u8),
    Spoil(u32, u8),
    Upgrade,
}
