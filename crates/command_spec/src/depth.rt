//! The two forms of a scrub.

/// How far a scrub looks.
#[derive(Clone, Copy, Drop)]
pub enum Depth {
    /// At sectors that can't be read alone: `scrub`.
    Shallow,
    /// Also for one sector of a segment that can be read and holds wrong bytes: `scrub deep`.
    Deep,
}
