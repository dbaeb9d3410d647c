//! How a telling ends early.

/// Why a telling was broken off.
#[derive(Clone, Copy, Debug, PartialEq, Eq)]
pub enum TraceFault {
    /// A line, counted from 1, has no form or a time below that of the line before, or stands behind the 1,048,576th;
    /// `place` bytes stand before it.
    Line { line: u32, place: u64 },
    /// The source failed.
    Source,
    /// The sink failed.
    Sink,
}
