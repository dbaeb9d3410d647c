//! Why a segment could not be read.

ghost use Rattle.std.specs.Prelude.{◌≡◌};
ghost use Rattle.segment_solve.specs.Faults.{store_fault};

use qic_base::StoreFault;

/// Why a segment could not be read. A call that the tape failed in answers that instead, so its answer is a result within
/// a result.
#[derive(Clone, Copy, Debug, Drop, PartialEq, Eq)]
pub enum SegFault {
    /// More than three of the segment's usable sectors are unreadable: their number.
    Lost { segment: u32, lost: u8 },
    /// At most three are, and no code block agrees with the others.
    Mismatch { segment: u32 },
}

impl From<SegFault> for StoreFault {
    ghost from_gives = { λ why fault. fault ≡ store_fault why };

    fn from(why: SegFault) -> StoreFault {
        match why {
            SegFault::Lost { segment, lost } => StoreFault::Lost { segment, lost },
            SegFault::Mismatch { segment } => StoreFault::Mismatch { segment },
        }
    }
}
