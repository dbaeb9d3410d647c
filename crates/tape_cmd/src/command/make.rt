//! Generated volumes appended, worn, scrubbed and summed.

ghost use Rattle.std.specs.Prelude.{◌≤◌};
ghost use Rattle.command_spec.specs.declared.words.Words.TheVariants.{Make};
ghost use Rattle.command_laws.specs.RunTerms.{EndsBlind};

use crate::Status;
use drive_states::Unit;
use host_commands::{open_writable, store_status};
use made_volumes::make_volumes;
use qic_base::{Sink, Tape};
use volume_store::Room;

/// Opens the cartridge, where it isn't protected, appends so many volumes that are made from the seed, wears some of
/// their sectors, scrubs the cartridge, and prints the sum of each volume's bytes.
pub fn make<T: Tape, K: Sink>(
    unit: &mut Unit<T>,
    room: Room,
    seed: u32,
    count: u32,
    sink: &mut K,
) -> Status
    requires few { count ≤ 200 }
    ensures { EndsBlind T.means K.means (Make seed count)
        unit.old.tape unit.new.tape sink.old sink.new result }
{
    let mut store = match open_writable(unit, room) {
        Ok(store) => store,
        Err(status) => return status,
    };
    match make_volumes(&mut store, unit, seed, count, sink) {
        Ok(()) => Status::Done,
        Err(fault) => store_status(fault),
    }
}
