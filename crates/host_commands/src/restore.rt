//! A volume given back.

ghost use Rattle.command_spec.specs.declared.words.Words.TheVariants.{Restore};
ghost use Rattle.command_laws.specs.RunTerms.{EndsBlind};

use crate::opening::{open, store_status};
use command_spec::Status;
use drive_states::Unit;
use qic_base::{Sink, Tape};
use volume_store::{Form, Room};

/// Opens the cartridge and gives the bytes of a volume, counted from 1, and nothing else.
pub fn restore<T: Tape, K: Sink>(
    unit: &mut Unit<T>,
    room: Room,
    number: u32,
    sink: &mut K,
) -> Status
    ensures { EndsBlind T.means K.means (Restore number)
        unit.old.tape unit.new.tape sink.old sink.new result }
{
    let mut store = match open(unit, room) {
        Ok(store) => store,
        Err(status) => return status,
    };
    prove!(store.count() <= 232);
    match store.restore(unit, number, Form::Alone, sink) {
        Ok(_) => Status::Done,
        Err(fault) => store_status(fault),
    }
}
