//! Why a cartridge could not be formatted.

ghost use Rattle.std.specs.Prelude.{◌≡◌};
ghost use Rattle.formatter.specs.declared.fault.FormatFault.TheVariants.{Tape as tape_fault};

use qic_base::TapeFailed;

/// Why a formatting came to nothing.
#[derive(Clone, Copy, Drop)]
pub enum FormatFault {
    /// The cartridge is write protected; nothing was written.
    Protected,
    /// A sector of this segment, one of 0 to 2, is a defect; the segments are formatted, and there is no header.
    DefectInFront { segment: u32 },
    /// The tape failed.
    Tape,
}

impl From<TapeFailed> for FormatFault {
    ghost from_gives = { λ _ fault. fault ≡ tape_fault };

    fn from(_failed: TapeFailed) -> FormatFault {
        FormatFault::Tape
    }
}
