//! How trains end early.

/// Why the trains were broken off.
#[derive(Clone, Copy, Debug, PartialEq, Eq)]
pub enum PulseFault {
    /// A line, counted from 1, is no number from 0 to 255, or stands behind the 65,536th; `place` bytes stand before
    /// it.
    Script { line: u32, place: u64 },
    /// The source failed.
    Source,
    /// The sink failed.
    Sink,
    /// The tape failed.
    Tape,
}
