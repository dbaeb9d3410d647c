//! The room for a volume more.

ghost use Rattle.command_spec.specs.declared.words.Words.TheVariants.{Room as tells_room};
ghost use Rattle.command_laws.specs.RunTerms.{EndsBlind};

use crate::opening::store_status;
use command_spec::Status;
use drive_states::Unit;
use hand_commands::printed;
use qic_base::{Sink, Tape, write_text};
use tape_script::number_text;
use volume_store::{Room, find_room};

/// Looks at the cartridge, and prints how many bytes an append may have now. Nothing of it is written or settled.
pub fn tell_room<T: Tape, K: Sink>(unit: &mut Unit<T>, room: Room, sink: &mut K) -> Status
    ensures { EndsBlind T.means K.means tells_room unit.old.tape unit.new.tape sink.old sink.new result }
{
    match find_room(unit, room) {
        Ok(Some(bytes)) => {
            printed(write_text(number_text(b"room", u64::from(bytes)).bytes(), sink))
        }
        Ok(None) => Status::NoCartridge,
        Err(fault) => store_status(fault),
    }
}
