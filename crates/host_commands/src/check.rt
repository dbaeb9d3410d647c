//! A cartridge checked.

ghost use Rattle.std.specs.Prelude.{◌≡◌};
ghost use Rattle.command_spec.specs.declared.words.Words.TheVariants.{Check};
ghost use Rattle.command_laws.specs.RunTerms.{EndsBlind};
ghost use Rattle.cartridge_check.specs.Checking.{fault_status as status_of_fault, tally_status as status_of_tally};

use cartridge_check::{CheckFault, Tally};
use command_spec::Status;
use drive_states::Unit;
use qic_base::{Sink, Tape};
use volume_store::Room;

/// The answer by the counts of a check.
fn tally_status(tally: Tally) -> Status
    ensures { result ≡ status_of_tally tally }
{
    if tally.mendable == 0 && tally.bad == 0 {
        Status::Done
    } else {
        Status::Unsound {
            mendable: tally.mendable,
            bad: tally.bad,
        }
    }
}

/// The answer that a refusal of a check makes, or its fault.
fn fault_status(fault: CheckFault) -> Status
    ensures { result ≡ status_of_fault fault }
{
    match fault {
        CheckFault::NoCartridge => Status::NoCartridge,
        CheckFault::NotFormatted => Status::NotFormatted,
        CheckFault::Foreign { field, value } => Status::Foreign { field, value },
        CheckFault::Lost { lost } => Status::Lost { segment: 2, lost },
        CheckFault::TableMismatch => Status::TableMismatch,
        CheckFault::Sink => Status::SinkFault,
        CheckFault::Tape => Status::TapeFault,
    }
}

/// Looks at each segment that a scrub looks at, and prints what can be mended and what can't. Nothing of the cartridge is
/// written or settled.
pub fn check<T: Tape, K: Sink>(unit: &mut Unit<T>, room: Room, sink: &mut K) -> Status
    ensures { EndsBlind T.means K.means Check unit.old.tape unit.new.tape sink.old sink.new result }
{
    match cartridge_check::check(unit, room, sink) {
        Ok(tally) => tally_status(tally),
        Err(fault) => fault_status(fault),
    }
}
