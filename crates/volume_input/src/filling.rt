//! The bytes of a source in a workspace.

ghost use Rattle.std.specs.Prelude.{◌≤◌, take};
ghost use Rattle.qic_base.specs.Cause.{HasCause};
ghost use Rattle.sector_fill.specs.Filling.{FillsSectors};

use qic_base::{Source, SourceFailed};
use sector_fill::fill_sectors;
use segment_io::Workspace;

/// Reads up to `most` bytes into the first `count` sectors, as `fill_sectors` does.
#[tactic(auto, using(qic_base::proofs::Arrays::lent))]
pub fn fill_work<S: Source>(
    source: &mut S,
    work: &mut Workspace,
    count: u8,
    most: u32,
) -> Result<u32, SourceFailed>
    requires { count ≤ 32 }
    ensures filled { FillsSectors S.means source.old source.new count most
        (take count work.new) result }
    ensures kept { S.means.keeps source.old source.new }
    ensures cause { HasCause (S.means.faults source.old) (S.means.faults source.new) result }
{
    fill_sectors(source, work.sectors_mut(), count, most)
}
