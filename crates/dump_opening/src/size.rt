//! The length of a dump, and the segment of its first piece.

ghost use Rattle.std.specs.Prelude.{◌≡◌, ◌≤◌, Some, List, ℕ, length, OnOk};
ghost use Rattle.dump_lists.specs.Masks.{IsMissingSet};
ghost use Rattle.dump_opening.specs.Counts.{CountsBy};
ghost use Rattle.dump_opening.specs.Sizes.{Measures};
ghost use Rattle.dump_spec.specs.Lists.{Span};
ghost use Rattle.qic_base.specs.Disk.{Look, Stored};

use crate::opened::OpenError;
use dump_reader::{first_segment, most_bytes};
use dump_spec::{Asked, Status};
use qic_base::{Disk, DiskFailed};

/// How long a dump is, and where it begins.
#[derive(Clone, Copy, Drop)]
pub(crate) struct DumpSize {
    /// How many bytes it has.
    pub bytes: u64,
    /// The segment of the first piece.
    pub first: u16,
}

/// Looks at the length and the front of a dump, by the set of the segments that it lacks. One of too many bytes is refused.
pub(crate) fn measure_dump<D: Disk>(
    disk: &mut D,
    asked: &Asked,
    missing: &[u32],
) -> Result<DumpSize, OpenError>
    requires { 2048 ≤ length missing.now }
    ensures measures { (bytes : List ℕ) (spans : List Span) → D.means.told disk.old ≡ Some bytes →
        IsMissingSet spans missing.now → Measures asked.now bytes spans result }
    ensures looked { OnOk result (Stored D.means disk.old disk.new Look) }
    ensures count { CountsBy (D.means.faults disk.old) (D.means.faults disk.new) result }
{
    let Ok(bytes) = disk.len() else {
        return Err(OpenError::Input);
    };
    let Ok(first) = first_segment(disk, asked.form, asked.first) else {
        return Err(OpenError::Input);
    };
    if bytes > most_bytes(asked.form, first, missing) {
        return Err(OpenError::Refused {
            status: Status::TooLong { bytes },
        });
    }
    Ok(DumpSize { bytes, first })
}
