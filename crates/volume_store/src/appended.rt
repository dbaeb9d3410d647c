//! What an append answers.

/// A volume that was appended.
#[derive(Clone, Copy)]
pub struct Appended {
    /// Its number, counted from 1.
    pub number: u32,
    /// Its length in bytes.
    pub bytes: u64,
    /// Its first segment, counted from 0.
    pub start: u16,
    /// Its last one.
    pub end: u16,
}
