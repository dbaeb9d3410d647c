//! Why a call on a cartridge's volumes came to nothing.

ghost use Rattle.std.specs.Prelude.{◌≡◌};
ghost use Rattle.qic_base.specs.declared.store_fault.StoreFault.TheVariants.{Source, Sink, Tape};

use crate::foreign::ForeignField;
use crate::sink::SinkFailed;
use crate::source::SourceFailed;
use crate::tape::TapeFailed;

/// Why a call on a cartridge's volumes came to nothing. Segments and slots count from 0, volumes from 1.
#[derive(Clone, Copy, Debug, Drop, PartialEq, Eq)]
pub enum StoreFault {
    /// The cartridge has no reference bursts, or no header that can be read.
    NotFormatted,
    /// The header or the volume table has a value that this project's profile does not take: of the map the value is a
    /// segment, of the volume table a slot.
    Foreign { field: ForeignField, value: u32 },
    /// A data sector of the volume table is unreadable, and no code block agrees with the sectors that can be read, nor
    /// with those outside one of the further sets.
    TableMismatch,
    /// There is room for `have` bytes, and `need` are asked for.
    Full { need: u64, have: u64 },
    /// There is no volume of this number among `count`.
    NoVolume { number: u32, count: u32 },
    /// More than three usable sectors of a segment that is needed are unreadable: their number.
    Lost { segment: u32, lost: u8 },
    /// At most three are, and no code block agrees with the others.
    Mismatch { segment: u32 },
    /// The cartridge is write protected.
    Protected,
    /// The source ended after `read` of the bytes that were promised.
    Short { promised: u32, read: u32 },
    /// The source failed.
    Source,
    /// The sink failed.
    Sink,
    /// The tape failed.
    Tape,
}

impl From<SourceFailed> for StoreFault {
    ghost from_gives = { λ _ fault. fault ≡ Source };

    fn from(_failed: SourceFailed) -> StoreFault {
        StoreFault::Source
    }
}

impl From<SinkFailed> for StoreFault {
    ghost from_gives = { λ _ fault. fault ≡ Sink };

    fn from(_failed: SinkFailed) -> StoreFault {
        StoreFault::Sink
    }
}

impl From<TapeFailed> for StoreFault {
    ghost from_gives = { λ _ fault. fault ≡ Tape };

    fn from(_failed: TapeFailed) -> StoreFault {
        StoreFault::Tape
    }
}
