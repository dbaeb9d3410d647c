//! What is done in one segment that was read.

ghost use Rattle.std.specs.Prelude.{◌≡◌, ◌<◌, ◌^◌, OnOk};
ghost use Rattle.qic_base.specs.Alone.{around};
ghost use Rattle.qic_base.specs.SinkCalls.{Writes};
ghost use Rattle.qic_base.specs.TapeCalls.{Does};
ghost use Rattle.cartridge_spec.specs.Shape.{usable_count};
ghost use Rattle.cartridge_laws.specs.Writes.{named_writes};
ghost use Rattle.host_driver.specs.Calls.{Keeps};
ghost use Rattle.segment_io.specs.Calls.{CanWrite};
ghost use Rattle.command_spec.specs.Scrub.{wrong_line};
ghost use Rattle.segment_mending.specs.Locating.{mending, GoesAs};
ghost use Rattle.segment_mending.specs.Looking.{HasFew, with_unread};
ghost use Rattle.segment_mending.specs.Mending.{reported};

use crate::lines::wrong_text;
use crate::report::ScrubReport;
use drive_states::Unit;
use host_driver::Host;
use qic_base::{LostSet, Sink, SinkFailed, StoreFault, Tape, TapeFailed, write_text};
use segment_io::{Workspace, write_sectors};
use tape_script::TextLine;

/// Writes the sectors at the lost places again. Where there are none, the tape stays where it is.
fn write_lost<T: Tape>(
    host: &mut Host,
    unit: &mut Unit<T>,
    segment: u32,
    usable: u32,
    lost: LostSet,
    work: &Workspace,
) -> Result<(), TapeFailed>
    requires can { CanWrite T.means host.old unit.old segment usable }
    requires within { lost < 2 ^ usable_count usable }
    ensures did { Does T.means unit.old.tape unit.new.tape
        (named_writes segment usable lost work.now) result }
    ensures keeps { Keeps T.means host.new unit.old unit.new }
{
    if lost.mask() == 0 {
        return Ok(());
    }
    write_sectors(host, unit, segment, usable, lost, work)
}

/// Prints the line of the sector with this index, where one is wrong.
fn tell_wrong<K: Sink>(segment: u32, wrong: Option<u8>, sink: &mut K) -> Result<(), SinkFailed>
    ensures { Writes K.means sink.old sink.new (wrong_line segment wrong) result }
{
    match wrong {
        Some(sector) => write_text(wrong_text(segment, sector).bytes(), sink),
        None => Ok(()),
    }
}

/// Mends a segment that reads. A wrong sector is one of the lost ones, and its line is printed behind the writes.
pub(crate) fn mend<T: Tape, K: Sink>(
    host: &mut Host,
    unit: &mut Unit<T>,
    segment: u32,
    usable: u32,
    lost: LostSet,
    wrong: Option<u8>,
    work: &Workspace,
    sink: &mut K,
) -> Result<(), StoreFault>
    requires can { CanWrite T.means host.old unit.old segment usable }
    requires within { lost < 2 ^ usable_count usable }
    ensures goes { GoesAs T.means K.means
        (mending (record { segment = segment; mask = usable }) lost wrong work.now)
        (around unit.old.tape sink.old) (around unit.new.tape sink.new) result }
    ensures keeps { Keeps T.means host.new unit.old unit.new }
{
    write_lost(host, unit, segment, usable, lost, work)?;
    tell_wrong(segment, wrong, sink)?;
    Ok(())
}

/// Prints the line of a segment that does not read, and counts it.
pub(crate) fn pass_over<K: Sink>(
    line: &TextLine,
    sink: &mut K,
    report: &mut ScrubReport,
) -> Result<(), SinkFailed>
    requires few { HasFew (2 ^ 26) (reported report.old) }
    ensures wrote { Writes K.means sink.old sink.new line.now result }
    ensures counted { OnOk result (reported report.new ≡ with_unread (reported report.old)) }
{
    write_text(line.bytes(), sink)?;
    report.count_unreadable();
    Ok(())
}
