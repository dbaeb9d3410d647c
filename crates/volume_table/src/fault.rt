//! Why the bytes of a volume table, or one entry more, are refused.

/// The first slot of a volume table that is at fault, 0 to 231.
#[derive(Clone, Copy, Debug, PartialEq, Eq)]
pub enum TableFault {
    /// The slot is neither free nor used, or is used behind a free one.
    ForeignSlot { slot: u8 },
    /// The slot's segments lie in front of the volumes, behind the last segment, backwards, or not
    /// behind those of the slot before.
    BadRange { slot: u8 },
}

/// The table has 232 volumes, and no slot for another one.
#[derive(Clone, Copy, Debug, PartialEq, Eq)]
pub struct TableFull;
