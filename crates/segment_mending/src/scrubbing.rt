//! All segments of a cartridge that hold something, one by one.

ghost use Rattle.std.specs.Prelude.{◌≡◌, ◌-◌, ◌*◌, ◌∷◌, [], true, length};
ghost use Rattle.qic_base.specs.Alone.{around};
ghost use Rattle.cartridge_laws.specs.Table.{IsSoundList};
ghost use Rattle.drive_spec.specs.Terms.{is_referenced};
ghost use Rattle.host_driver.specs.Calls.{IsReady, MayWrite, Keeps};
ghost use Rattle.host_driver.specs.Fits.{segments_of};
ghost use Rattle.command_spec.specs.Scrub.{whole_segment};
ghost use Rattle.segment_mending.specs.Looking.{HasFew, Looks};
ghost use Rattle.segment_mending.specs.Mending.{ScrubEnds, reported};

use crate::lines::counts_text;
use crate::looking::look_at;
use crate::progress::Progress;
use crate::report::ScrubReport;
use crate::volumes::look_at_volumes;
use bad_sector_map::BadMap;
use command_spec::Depth;
use drive_states::Unit;
use host_driver::Host;
use qic_base::{Sink, StoreFault, Tape, WHOLE, write_text};
use segment_io::Workspace;
use volume_table::{TABLE_SEGMENT, Table};

/// Looks at both header copies and the table's segment.
fn look_at_front<T: Tape, K: Sink>(
    host: &mut Host,
    unit: &mut Unit<T>,
    work: &mut Workspace,
    sink: &mut K,
    progress: &mut Progress,
) -> Result<(), StoreFault>
    requires ready { IsReady T.means host.old unit.old }
    requires referenced { is_referenced unit.old.drive.deck ≡ true }
    requires writable { MayWrite unit.old.drive.deck }
    requires few { HasFew 0 (reported progress.old.report) }
    ensures looks { Looks T.means K.means
        (whole_segment 0 ∷ whole_segment 1 ∷ whole_segment 2 ∷ [])
        (around unit.old.tape sink.old) (around unit.new.tape sink.new)
        progress.old progress.new result }
    ensures keeps { Keeps T.means host.new unit.old unit.new }
{
    look_at(host, unit, 0, WHOLE, work, sink, progress)?;
    look_at(host, unit, 1, WHOLE, work, sink, progress)?;
    look_at(host, unit, TABLE_SEGMENT, WHOLE, work, sink, progress)
}

/// Looks at both header copies, the table's segment and the carrying segments of all volumes, ascending. In each that
/// reads, the usable sectors that can't be read are written again, ascending, and nothing else; a line is printed for
/// each that doesn't. A sector that is found to hold wrong bytes, which `Depth::Deep` looks for in all of them but the
/// table's, counts as one that can't be read, and has a line. The last line has the counts.
pub fn scrub_segments<T: Tape, K: Sink>(
    host: &mut Host,
    unit: &mut Unit<T>,
    depth: Depth,
    map: &BadMap,
    table: &Table,
    work: &mut Workspace,
    sink: &mut K,
) -> Result<ScrubReport, StoreFault>
    requires ready { IsReady T.means host.old unit.old }
    requires referenced { is_referenced unit.old.drive.deck ≡ true }
    requires writable { MayWrite unit.old.drive.deck }
    requires map { length map.now ≡ 28 * segments_of host.old }
    requires list { IsSoundList (length map.now - 1) table.now }
    ensures ends { ScrubEnds T.means K.means depth map.now table.now
        (around unit.old.tape sink.old) (around unit.new.tape sink.new) result }
    ensures keeps { Keeps T.means host.new unit.old unit.new }
{
    let report = ScrubReport {
        segments: 0,
        mended: 0,
        unreadable: 0,
    };
    let mut progress = Progress { depth, report };
    look_at_front(host, unit, work, sink, &mut progress)?;
    look_at_volumes(host, unit, map, table, work, sink, &mut progress)?;
    write_text(counts_text(progress.report).bytes(), sink)?;
    Ok(progress.report)
}
