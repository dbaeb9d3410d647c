//! The segments of volumes looked at.

ghost use Rattle.std.specs.Prelude.{◌≡◌, ◌+◌, ◌-◌, ◌*◌, ◌<◌, ◌≤◌, ◌^◌, true, length, OnOk};
ghost use Rattle.qic_base.specs.Alone.{around};
ghost use Rattle.cartridge_laws.specs.Table.{IsSoundList};
ghost use Rattle.cartridge_spec.specs.Volumes.{carrying};
ghost use Rattle.drive_spec.specs.Terms.{is_referenced};
ghost use Rattle.drive_states.specs.Reach.{reads_in};
ghost use Rattle.host_driver.specs.Calls.{IsReady, Keeps};
ghost use Rattle.host_driver.specs.Fits.{segments_of};
ghost use Rattle.command_spec.specs.Scrub.{looked_volumes};
ghost use Rattle.command_laws.specs.ScrubTerms.{looked_segments};
ghost use Rattle.cartridge_check.specs.Telling.{HasFew, TellsAll};

use crate::fault::CheckFault;
use crate::looking::tell_segment;
use crate::tally::Tally;
use bad_sector_map::{BadMap, FEWEST};
use drive_states::Unit;
use host_driver::Host;
use qic_base::{LostSet, Sink, Tape};
use segment_io::Workspace;
use volume_table::{Entry, Table};

/// Looks at a segment behind the table's if it carries data.
fn tell_if_carrying<T: Tape, K: Sink>(
    host: &mut Host,
    unit: &mut Unit<T>,
    map: &BadMap,
    segment: u32,
    work: &mut Workspace,
    sink: &mut K,
    tally: &mut Tally,
) -> Result<(), CheckFault>
    requires ready { IsReady T.means host.old unit.old }
    requires referenced { is_referenced unit.old.drive.deck ≡ true }
    requires mode { reads_in unit.old.drive.deck.mode ≡ true }
    requires map { length map.now ≡ 28 * segments_of host.old }
    requires behind { 2 < segment }
    requires on_tape { segment < length map.now }
    requires few { HasFew (2 ^ 26) tally.old }
    ensures tells { TellsAll T.means K.means
        (looked_segments map.now (carrying map.now segment segment))
        (around unit.old.tape sink.old) (around unit.new.tape sink.new)
        tally.old tally.new result }
    ensures keeps { Keeps T.means host.new unit.old unit.new }
{
    let usable = map.usable(segment);
    if LostSet::from_mask(usable).count() < FEWEST {
        return Ok(());
    }
    tell_segment(host, unit, segment, usable, work, sink, tally)
}

/// Looks at the segments of a volume that carry data, ascending.
fn tell_volume<T: Tape, K: Sink>(
    host: &mut Host,
    unit: &mut Unit<T>,
    map: &BadMap,
    entry: &Entry,
    work: &mut Workspace,
    sink: &mut K,
    tally: &mut Tally,
) -> Result<(), CheckFault>
    requires ready { IsReady T.means host.old unit.old }
    requires referenced { is_referenced unit.old.drive.deck ≡ true }
    requires mode { reads_in unit.old.drive.deck.mode ≡ true }
    requires map { length map.now ≡ 28 * segments_of host.old }
    requires behind { 2 < entry.now.start }
    requires forwards { entry.now.start ≤ entry.now.end }
    requires on_tape { entry.now.end < length map.now }
    requires few { HasFew (2 ^ 25) tally.old }
    ensures tells { TellsAll T.means K.means
        (looked_segments map.now (carrying map.now entry.now.start entry.now.end))
        (around unit.old.tape sink.old) (around unit.new.tape sink.new)
        tally.old tally.new result }
    ensures few { OnOk result (tally.new.segments ≤ tally.old.segments + 65536) }
    ensures keeps { Keeps T.means host.new unit.old unit.new }
{
    for segment in u32::from(entry.start)..u32::from(entry.end) + 1 {
        tell_if_carrying(host, unit, map, segment, work, sink, tally)?;
    }
    Ok(())
}

/// Looks at the carrying segments of all volumes, ascending.
pub(crate) fn tell_volumes<T: Tape, K: Sink>(
    host: &mut Host,
    unit: &mut Unit<T>,
    map: &BadMap,
    table: &Table,
    work: &mut Workspace,
    sink: &mut K,
    tally: &mut Tally,
) -> Result<(), CheckFault>
    requires ready { IsReady T.means host.old unit.old }
    requires referenced { is_referenced unit.old.drive.deck ≡ true }
    requires mode { reads_in unit.old.drive.deck.mode ≡ true }
    requires map { length map.now ≡ 28 * segments_of host.old }
    requires list { IsSoundList (length map.now - 1) table.now }
    requires few { HasFew 3 tally.old }
    ensures tells { TellsAll T.means K.means (looked_volumes map.now table.now)
        (around unit.old.tape sink.old) (around unit.new.tape sink.new)
        tally.old tally.new result }
    ensures keeps { Keeps T.means host.new unit.old unit.new }
{
    for index in 0..table.len() {
        let entry = table.entry(index);
        tell_volume(host, unit, map, entry, work, sink, tally)?;
    }
    Ok(())
}
