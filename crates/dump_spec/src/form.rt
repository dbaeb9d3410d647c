//! The forms of a dump.

/// What a dump holds of each segment of a tape.
#[derive(Clone, Copy, Drop, PartialEq, Eq)]
pub enum Form {
    /// All 32 sectors, 32,768 bytes.
    Sectors,
    /// The data sectors alone, as the Linux ftape driver hands them out: 1,024 bytes for each usable sector but the last
    /// three.
    Data,
}
