//! The forms in which a volume's bytes are given.

/// How the bytes of a segment are given to a sink.
#[derive(Clone, Copy, Drop)]
pub enum Form {
    /// The bytes alone.
    Alone,
    /// Behind a line `part K`, where K is their number.
    Lined,
}
