//! The segments of volumes looked at.

ghost use Rattle.std.specs.Prelude.{◌≡◌, ◌+◌, ◌-◌, ◌*◌, ◌<◌, ◌≤◌, ◌^◌, true, length, OnOk};
ghost use Rattle.qic_base.specs.Alone.{around};
ghost use Rattle.cartridge_laws.specs.Table.{IsSoundList};
ghost use Rattle.cartridge_spec.specs.Volumes.{carrying};
ghost use Rattle.drive_spec.specs.Terms.{is_referenced};
ghost use Rattle.host_driver.specs.Calls.{IsReady, MayWrite, Keeps};
ghost use Rattle.host_driver.specs.Fits.{segments_of};
ghost use Rattle.command_spec.specs.Scrub.{looked_volumes};
ghost use Rattle.command_laws.specs.ScrubTerms.{looked_segments};
ghost use Rattle.segment_mending.specs.Looking.{HasFew, Looks};
ghost use Rattle.segment_mending.specs.Mending.{reported};

use crate::looking::look_at;
use crate::progress::Progress;
use bad_sector_map::{BadMap, FEWEST};
use drive_states::Unit;
use host_driver::Host;
use qic_base::{LostSet, Sink, StoreFault, Tape};
use segment_io::Workspace;
use volume_table::{Entry, Table};

/// Looks at the segments of a volume that carry data, ascending.
fn look_at_volume<T: Tape, K: Sink>(
    host: &mut Host,
    unit: &mut Unit<T>,
    map: &BadMap,
    entry: &Entry,
    work: &mut Workspace,
    sink: &mut K,
    progress: &mut Progress,
) -> Result<(), StoreFault>
    requires ready { IsReady T.means host.old unit.old }
    requires referenced { is_referenced unit.old.drive.deck ≡ true }
    requires writable { MayWrite unit.old.drive.deck }
    requires map { length map.now ≡ 28 * segments_of host.old }
    requires behind { 2 < entry.now.start }
    requires forwards { entry.now.start ≤ entry.now.end }
    requires on_tape { entry.now.end < length map.now }
    requires few { HasFew (2 ^ 25) (reported progress.old.report) }
    ensures looks { Looks T.means K.means
        (looked_segments map.now (carrying map.now entry.now.start entry.now.end))
        (around unit.old.tape sink.old) (around unit.new.tape sink.new)
        progress.old progress.new result }
    ensures few { OnOk result
        (progress.new.report.segments ≤ progress.old.report.segments + 65536) }
    ensures keeps { Keeps T.means host.new unit.old unit.new }
{
    for segment in u32::from(entry.start)..u32::from(entry.end) + 1 {
        let usable = map.usable(segment);
        if LostSet::from_mask(usable).count() >= FEWEST {
            look_at(host, unit, segment, usable, work, sink, progress)?;
        }
    }
    Ok(())
}

/// Looks at the carrying segments of all volumes, ascending.
pub(crate) fn look_at_volumes<T: Tape, K: Sink>(
    host: &mut Host,
    unit: &mut Unit<T>,
    map: &BadMap,
    table: &Table,
    work: &mut Workspace,
    sink: &mut K,
    progress: &mut Progress,
) -> Result<(), StoreFault>
    requires ready { IsReady T.means host.old unit.old }
    requires referenced { is_referenced unit.old.drive.deck ≡ true }
    requires writable { MayWrite unit.old.drive.deck }
    requires map { length map.now ≡ 28 * segments_of host.old }
    requires list { IsSoundList (length map.now - 1) table.now }
    requires few { HasFew 3 (reported progress.old.report) }
    ensures looks { Looks T.means K.means (looked_volumes map.now table.now)
        (around unit.old.tape sink.old) (around unit.new.tape sink.new)
        progress.old progress.new result }
    ensures keeps { Keeps T.means host.new unit.old unit.new }
{
    for index in 0..table.len() {
        let entry = table.entry(index);
        look_at_volume(host, unit, map, entry, work, sink, progress)?;
    }
    Ok(())
}
