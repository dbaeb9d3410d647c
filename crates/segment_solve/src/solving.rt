//! A segment whose sectors were collected, solved.

ghost use Rattle.std.specs.Prelude.{◌≡◌, List, length};
ghost use Rattle.qic_base.specs.declared.tape.SectorView.{SectorView};
ghost use Rattle.cartridge_laws.specs.Shape.{Carries};
ghost use Rattle.cartridge_spec.specs.Shape.{usable_count};
ghost use Rattle.segment_solve.specs.Gathered.{Gathered};
ghost use Rattle.segment_solve.specs.Reading.{Solves, IsSolved};

use crate::fault::SegFault;
use crate::shape::count_usable;
use crate::workspace::Workspace;
use erasure_solve::{SolveFault, solve};
use qic_base::LostSet;

/// Makes the usable sectors of a collected segment a code block, by changing those that were lost.
pub fn solve_collected(
    segment: u32,
    usable: u32,
    lost: LostSet,
    work: &mut Workspace,
) -> Result<(), SegFault>
    requires { Carries usable }
    // What the segment's cells say, of which these sectors were gathered.
    ensures solves { (cells : List SectorView) → length cells ≡ usable_count usable →
        Gathered cells lost work.old → Solves segment cells work.new result }
    // And where nothing is known of the cells:
    ensures solved { IsSolved segment usable lost work.old work.new result }
    ensures room { length work.new ≡ 32 }
{
    let count = usize::from(count_usable(usable));
    let (collected, _) = work.sectors.split_at_mut(count);
    match solve(collected, lost) {
        Ok(()) => Ok(()),
        Err(SolveFault::TooMany { lost }) => Err(SegFault::Lost { segment, lost }),
        Err(SolveFault::Mismatch) => Err(SegFault::Mismatch { segment }),
    }
}
