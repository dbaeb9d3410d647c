//! A cartridge looked at.

ghost use Rattle.std.specs.Prelude.{◌≡◌, ◌-◌, ◌*◌, true, length, take, OnOk};
ghost use Rattle.qic_base.specs.Alone.{around};
ghost use Rattle.drive_spec.specs.Terms.{is_referenced};
ghost use Rattle.drive_states.specs.Reach.{reads_in};
ghost use Rattle.host_driver.specs.Calls.{IsReady, Keeps};
ghost use Rattle.host_driver.specs.Fits.{AgreesWithTape, segments_of};
ghost use Rattle.cartridge_front.specs.Finding.{ShowsVolumes};
ghost use Rattle.cartridge_check.specs.Checking.{CheckEnds, HeaderEnds, TableEnds, as_check};
ghost use Rattle.cartridge_check.specs.Telling.{HasFew};

use crate::fault::CheckFault;
use crate::lines::counts_text;
use crate::looking::{tell_copies, tell_table};
use crate::tally::Tally;
use crate::volumes::tell_volumes;
use bad_sector_map::BadMap;
use cartridge_front::{enter_primary, read_header, read_volumes};
use drive_states::Unit;
use host_driver::Host;
use qic_base::{Sink, StoreFault, Tape, write_text};
use segment_io::Workspace;
use volume_store::{Room, start};
use volume_table::Table;

/// The refusal of a mounting, or its fault of the tape.
fn check_fault(fault: StoreFault) -> CheckFault
    ensures { result ≡ as_check fault }
{
    match fault {
        StoreFault::NotFormatted => CheckFault::NotFormatted,
        StoreFault::Foreign { field, value } => CheckFault::Foreign { field, value },
        StoreFault::Lost { lost, .. } => CheckFault::Lost { lost },
        StoreFault::TableMismatch => CheckFault::TableMismatch,
        _ => CheckFault::Tape,
    }
}

/// Looks at both header copies, and then reads the header in force and its map of bad sectors.
fn check_header<T: Tape, K: Sink>(
    host: &mut Host,
    unit: &mut Unit<T>,
    work: &mut Workspace,
    map: &mut BadMap,
    sink: &mut K,
    tally: &mut Tally,
) -> Result<(), CheckFault>
    requires ready { IsReady T.means host.old unit.old }
    requires referenced { is_referenced unit.old.drive.deck ≡ true }
    requires mode { reads_in unit.old.drive.deck.mode ≡ true }
    requires agrees { AgreesWithTape T.means unit.old }
    requires few { HasFew 0 tally.old }
    ensures ends { HeaderEnds T.means K.means map.new
        (around unit.old.tape sink.old) (around unit.new.tape sink.new)
        tally.old tally.new result }
    ensures map { OnOk result (length map.new ≡ 28 * segments_of host.old) }
    ensures few { OnOk result (HasFew 2 tally.new) }
    ensures keeps { Keeps T.means host.new unit.old unit.new }
{
    tell_copies(host, unit, work, sink, tally)?;
    match read_header(host, unit, work, map) {
        Ok(_) => Ok(()),
        Err(fault) => Err(check_fault(fault)),
    }
}

/// Looks at the volume table's segment, and then reads the list of volumes.
fn check_table<T: Tape, K: Sink>(
    host: &mut Host,
    unit: &mut Unit<T>,
    work: &mut Workspace,
    table: &mut Table,
    sink: &mut K,
    tally: &mut Tally,
) -> Result<(), CheckFault>
    requires ready { IsReady T.means host.old unit.old }
    requires referenced { is_referenced unit.old.drive.deck ≡ true }
    requires mode { reads_in unit.old.drive.deck.mode ≡ true }
    requires few { HasFew 2 tally.old }
    ensures ends { TableEnds T.means K.means (28 * segments_of host.old - 1) work.new table.new
        (around unit.old.tape sink.old) (around unit.new.tape sink.new)
        tally.old tally.new result }
    ensures shown { OnOk result
        (ShowsVolumes (take 29 work.new) (28 * segments_of host.old - 1) table.new) }
    ensures few { OnOk result (HasFew 3 tally.new) }
    ensures keeps { Keeps T.means host.new unit.old unit.new }
{
    tell_table(host, unit, work, sink, tally)?;
    match read_volumes(host, unit, work, table) {
        Ok(_) => Ok(()),
        Err(fault) => Err(check_fault(fault)),
    }
}

/// Looks at all segments of a cartridge that has reference bursts.
fn check_segments<T: Tape, K: Sink>(
    host: &mut Host,
    unit: &mut Unit<T>,
    room: &mut Room,
    sink: &mut K,
) -> Result<Tally, CheckFault>
    requires ready { IsReady T.means host.old unit.old }
    requires referenced { is_referenced unit.old.drive.deck ≡ true }
    requires mode { reads_in unit.old.drive.deck.mode ≡ true }
    requires agrees { AgreesWithTape T.means unit.old }
    ensures { CheckEnds T.means K.means
        (around unit.old.tape sink.old) (around unit.new.tape sink.new) result }
{
    let mut tally = Tally {
        segments: 0,
        mendable: 0,
        bad: 0,
    };
    check_header(host, unit, &mut room.work, &mut room.map, sink, &mut tally)?;
    check_table(
        host,
        unit,
        &mut room.work,
        &mut room.table,
        sink,
        &mut tally,
    )?;
    tell_volumes(
        host,
        unit,
        &room.map,
        &room.table,
        &mut room.work,
        sink,
        &mut tally,
    )?;
    write_text(counts_text(tally).bytes(), sink)?;
    Ok(tally)
}

/// Looks at all segments of a cartridge that was put in.
fn check_started<T: Tape, K: Sink>(
    host: &mut Host,
    unit: &mut Unit<T>,
    room: &mut Room,
    sink: &mut K,
) -> Result<Tally, CheckFault>
    requires ready { IsReady T.means host.old unit.old }
    requires agrees { AgreesWithTape T.means unit.old }
    ensures { CheckEnds T.means K.means
        (around unit.old.tape sink.old) (around unit.new.tape sink.new) result }
{
    if !host.referenced() {
        return Err(CheckFault::NotFormatted);
    }
    enter_primary(host, unit);
    check_segments(host, unit, room, sink)
}

/// Puts the cartridge in, and looks at both header copies, the table's segment and the carrying segments of all volumes,
/// ascending; a line is printed for each that isn't sound, as it is found, and the last line has the counts. The refusals
/// are those of a mounting: that of a header comes behind the lines of its copies, that of the table behind its segment's.
/// The tape is only read: nothing is settled.
pub fn check<T: Tape, K: Sink>(
    unit: &mut Unit<T>,
    mut room: Room,
    sink: &mut K,
) -> Result<Tally, CheckFault>
    ensures { CheckEnds T.means K.means
        (around unit.old.tape sink.old) (around unit.new.tape sink.new) result }
{
    match start(unit)? {
        Some(mut host) => check_started(&mut host, unit, &mut room, sink),
        None => Err(CheckFault::NoCartridge),
    }
}
