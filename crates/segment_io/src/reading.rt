//! A segment read.

ghost use Rattle.std.specs.Prelude.{◌≡◌, ◌<◌, ◌^◌, [], length, IfOk};
ghost use Rattle.qic_base.specs.TapeCalls.{Does, Tells};
ghost use Rattle.cartridge_spec.specs.Shape.{usable_count};
ghost use Rattle.cartridge_spec.specs.Says.{cells_of};
ghost use Rattle.host_driver.specs.Calls.{Keeps};
ghost use Rattle.segment_io.specs.Calls.{CanRead};
ghost use Rattle.segment_solve.specs.Gathered.{Gathered, NamesUnreadable};
ghost use Rattle.segment_solve.specs.Reading.{Solves, IsRead};

use drive_states::Unit;
use host_driver::Host;
use qic_base::{LostSet, Tape, TapeFailed};
use segment_solve::{SegFault, Workspace, gather, solve_collected};

/// Reads the usable sectors of a segment into the first places of the workspace, ascending: bit `i` of `usable` stands
/// for sector `i`. The answer is the places of those that can't be read.
#[tactic(auto, using(qic_base::proofs::Steps::joins))]
pub fn collect<T: Tape>(
    host: &mut Host,
    unit: &mut Unit<T>,
    segment: u32,
    usable: u32,
    work: &mut Workspace,
) -> Result<LostSet, TapeFailed>
    requires { CanRead T.means host.old unit.old segment usable }
    ensures did { Does T.means unit.old.tape unit.new.tape [] result }
    ensures gathered { IfOk result (λ lost. Tells T.means unit.old.tape (λ c.
        Gathered (cells_of c segment usable) lost work.new)) }
    // The places lie below the number of usable sectors, also where the tape tells nothing.
    ensures within { IfOk result (λ lost. lost < 2 ^ usable_count usable) }
    ensures room { length work.new ≡ 32 }
    ensures keeps { Keeps T.means host.new unit.old unit.new }
{
    host.go_to(unit, segment);
    let Some(sectors) = work.sectors_mut().as_mut_array() else {
        unreachable!("there are 32 sectors")
    };
    let read = host.read_sectors(unit, segment, LostSet::from_mask(usable), sectors)?;
    Ok(gather(sectors, usable, read.good))
}

/// Reads a segment as `collect` does, and makes its sectors the code block that agrees with those that can be read. The
/// answer is the places of those that can't.
pub fn read_segment<T: Tape>(
    host: &mut Host,
    unit: &mut Unit<T>,
    segment: u32,
    usable: u32,
    work: &mut Workspace,
) -> Result<Result<LostSet, SegFault>, TapeFailed>
    requires { CanRead T.means host.old unit.old segment usable }
    ensures did { Does T.means unit.old.tape unit.new.tape [] result }
    ensures solves { IfOk result (λ read. Tells T.means unit.old.tape (λ c.
        Solves segment (cells_of c segment usable) work.new read)) }
    ensures unreadable { IfOk result (λ read. IfOk read (λ lost. Tells T.means unit.old.tape (λ c.
        NamesUnreadable (cells_of c segment usable) lost))) }
    // And where the tape tells nothing:
    ensures read { IfOk result (IsRead segment usable work.new) }
    ensures room { length work.new ≡ 32 }
    ensures keeps { Keeps T.means host.new unit.old unit.new }
{
    let lost = collect(host, unit, segment, usable, work)?;
    match solve_collected(segment, usable, lost, work) {
        Ok(()) => Ok(Ok(lost)),
        Err(fault) => Ok(Err(fault)),
    }
}
