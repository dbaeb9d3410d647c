//! What the cells of a segment say together.

ghost use Rattle.std.specs.Prelude.{◌≡◌};
ghost use Rattle.segment_salvage.specs.Found.{has_block};

/// What is found of the cells of a segment, of which some are lost.
#[derive(Clone, Copy, Drop)]
pub enum SegmentCase {
    /// At most three cells are lost, and a code block agrees with the others.
    OneBlock,
    /// None does, at most one is lost, and a code block agrees with the others but the one at this place.
    OneWrong { place: u8 },
    /// At most three are lost, and neither is found.
    Contradicts,
    /// Nothing can be solved, since more than three are lost, or the dump has no parity.
    AsRead,
}

impl SegmentCase {
    /// Whether a code block was found.
    pub(crate) fn has_block(&self) -> bool
        ensures { result ≡ has_block self.now }
    {
        match self {
            SegmentCase::OneBlock | SegmentCase::OneWrong { .. } => true,
            SegmentCase::Contradicts | SegmentCase::AsRead => false,
        }
    }
}
