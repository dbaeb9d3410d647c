//! Where a volume lies.

/// The segments in which a volume lies, and how many of its first bytes are asked for.
#[derive(Clone, Copy)]
pub struct Extent {
    /// The first segment, counted from 0.
    pub start: u16,
    /// The last one.
    pub end: u16,
    /// The number of bytes; at most as many as these segments carry.
    pub bytes: u64,
}
