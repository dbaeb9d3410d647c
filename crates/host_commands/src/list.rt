//! The volumes of a cartridge, listed.

ghost use Rattle.command_spec.specs.declared.words.Words.TheVariants.{List};
ghost use Rattle.command_laws.specs.RunTerms.{EndsBlind};

use crate::opening::open;
use command_spec::Status;
use drive_states::Unit;
use hand_commands::printed;
use qic_base::{Sink, Tape};
use volume_store::{Room, write_list};

/// Opens the cartridge and prints its volumes.
pub fn list<T: Tape, K: Sink>(unit: &mut Unit<T>, room: Room, sink: &mut K) -> Status
    ensures { EndsBlind T.means K.means List unit.old.tape unit.new.tape sink.old sink.new result }
{
    match open(unit, room) {
        Ok(store) => printed(write_list(&store, sink)),
        Err(status) => status,
    }
}
