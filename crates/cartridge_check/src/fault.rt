//! Why a check was cut off or refused.

ghost use Rattle.std.specs.Prelude.{◌≡◌};
ghost use Rattle.cartridge_check.specs.declared.fault.CheckFault.TheVariants.{Sink as sink_fault, Tape as tape_fault};

use qic_base::{ForeignField, SinkFailed, TapeFailed};

/// Why a check was cut off, or refused behind the lines of the segments in front.
#[derive(Clone, Copy, Drop)]
pub enum CheckFault {
    /// The drive holds no cartridge.
    NoCartridge,
    /// The cartridge has no reference bursts, or no header that can be read.
    NotFormatted,
    /// The header or the volume table has a value that this project's profile does not take: of the map the value is a
    /// segment, of the volume table a slot.
    Foreign { field: ForeignField, value: u32 },
    /// So many sectors of the volume table's segment are unreadable, 4 to 32, one of them of data.
    Lost { lost: u8 },
    /// A data sector of the volume table is unreadable, and no code block agrees with the sectors that can be read, nor
    /// with those outside one of the further sets.
    TableMismatch,
    /// The sink failed.
    Sink,
    /// The tape failed.
    Tape,
}

impl From<SinkFailed> for CheckFault {
    ghost from_gives = { λ _ fault. fault ≡ sink_fault };

    fn from(_failed: SinkFailed) -> CheckFault {
        CheckFault::Sink
    }
}

impl From<TapeFailed> for CheckFault {
    ghost from_gives = { λ _ fault. fault ≡ tape_fault };

    fn from(_failed: TapeFailed) -> CheckFault {
        CheckFault::Tape
    }
}
