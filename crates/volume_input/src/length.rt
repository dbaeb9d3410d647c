//! How many bytes of a source are wanted.

ghost use Rattle.std.specs.Prelude.{◌≡◌};
ghost use Rattle.volume_input.specs.Length.{is_exact};

/// How many bytes of a source are wanted.
#[derive(Clone, Copy)]
pub struct Wanted {
    /// The most bytes.
    pub most: u32,
    /// What their number says of the source.
    pub length: Length,
}

/// What a number of bytes that are wanted says of the source.
#[derive(Clone, Copy, Drop)]
pub enum Length {
    /// It may end before.
    AtMost,
    /// Where it ends before, that is a fault.
    Exact,
}

impl Length {
    /// Whether the source has to have so many.
    pub(crate) fn is_exact(self) -> bool
        ensures { result ≡ is_exact self }
    {
        matches!(self, Length::Exact)
    }
}
