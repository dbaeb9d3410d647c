//! One segment looked at, its line printed, and counted.

ghost use Rattle.std.specs.Prelude.{◌≡◌, ◌≢◌, ◌<◌, ◌^◌, [], ◌∷◌, true, OnOk};
ghost use Rattle.qic_base.specs.Alone.{around};
ghost use Rattle.qic_base.specs.SinkCalls.{Writes};
ghost use Rattle.cartridge_spec.specs.Says.{whole_mask};
ghost use Rattle.command_spec.specs.Scrub.{whole_segment};
ghost use Rattle.drive_spec.specs.Terms.{is_referenced};
ghost use Rattle.drive_states.specs.Reach.{reads_in};
ghost use Rattle.host_driver.specs.Calls.{IsReady, Keeps};
ghost use Rattle.segment_io.specs.Calls.{CanRead};
ghost use Rattle.command_spec.specs.Check.{verdict_line, header_copies};
ghost use Rattle.cartridge_check.specs.Telling.{Counted, HasFew, TellsAll};

use crate::fault::CheckFault;
use crate::lines::verdict_text;
use crate::tally::Tally;
use crate::verdicts::{look_at_segment, look_at_table};
use command_spec::Verdict;
use drive_states::Unit;
use host_driver::Host;
use qic_base::{Sink, SinkFailed, Tape, WHOLE, write_text};
use segment_io::Workspace;
use volume_table::TABLE_SEGMENT;

/// Prints the line of a segment of which this is told, and counts it.
fn tell_verdict<K: Sink>(
    segment: u32,
    verdict: Verdict,
    sink: &mut K,
    tally: &mut Tally,
) -> Result<(), SinkFailed>
    requires few { HasFew (2 ^ 26) tally.old }
    ensures wrote { Writes K.means sink.old sink.new (verdict_line segment verdict) result }
    ensures counted { OnOk result (Counted (verdict ∷ []) tally.old tally.new) }
{
    write_text(verdict_text(segment, verdict).bytes(), sink)?;
    tally.count(verdict);
    Ok(())
}

/// Looks at a segment that isn't the volume table's.
pub(crate) fn tell_segment<T: Tape, K: Sink>(
    host: &mut Host,
    unit: &mut Unit<T>,
    segment: u32,
    usable: u32,
    work: &mut Workspace,
    sink: &mut K,
    tally: &mut Tally,
) -> Result<(), CheckFault>
    requires can { CanRead T.means host.old unit.old segment usable }
    requires whole { segment < 2 → usable ≡ whole_mask }
    requires other { segment ≢ 2 }
    requires few { HasFew (2 ^ 26) tally.old }
    ensures tells { TellsAll T.means K.means (record { segment = segment; mask = usable } ∷ [])
        (around unit.old.tape sink.old) (around unit.new.tape sink.new)
        tally.old tally.new result }
    ensures keeps { Keeps T.means host.new unit.old unit.new }
{
    let verdict = look_at_segment(host, unit, segment, usable, work)?;
    tell_verdict(segment, verdict, sink, tally)?;
    Ok(())
}

/// Looks at the volume table's segment.
pub(crate) fn tell_table<T: Tape, K: Sink>(
    host: &mut Host,
    unit: &mut Unit<T>,
    work: &mut Workspace,
    sink: &mut K,
    tally: &mut Tally,
) -> Result<(), CheckFault>
    requires ready { IsReady T.means host.old unit.old }
    requires referenced { is_referenced unit.old.drive.deck ≡ true }
    requires mode { reads_in unit.old.drive.deck.mode ≡ true }
    requires few { HasFew (2 ^ 26) tally.old }
    ensures tells { TellsAll T.means K.means (whole_segment 2 ∷ [])
        (around unit.old.tape sink.old) (around unit.new.tape sink.new)
        tally.old tally.new result }
    ensures keeps { Keeps T.means host.new unit.old unit.new }
{
    let verdict = look_at_table(host, unit, work)?;
    tell_verdict(TABLE_SEGMENT, verdict, sink, tally)?;
    Ok(())
}

/// Looks at both header copies.
pub(crate) fn tell_copies<T: Tape, K: Sink>(
    host: &mut Host,
    unit: &mut Unit<T>,
    work: &mut Workspace,
    sink: &mut K,
    tally: &mut Tally,
) -> Result<(), CheckFault>
    requires ready { IsReady T.means host.old unit.old }
    requires referenced { is_referenced unit.old.drive.deck ≡ true }
    requires mode { reads_in unit.old.drive.deck.mode ≡ true }
    requires few { HasFew 0 tally.old }
    ensures tells { TellsAll T.means K.means header_copies
        (around unit.old.tape sink.old) (around unit.new.tape sink.new)
        tally.old tally.new result }
    ensures keeps { Keeps T.means host.new unit.old unit.new }
{
    tell_segment(host, unit, 0, WHOLE, work, sink, tally)?;
    tell_segment(host, unit, 1, WHOLE, work, sink, tally)
}
