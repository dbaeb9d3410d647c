//! A cartridge scrubbed, in either form.

ghost use Rattle.command_spec.specs.declared.words.Words.TheVariants.{Scrub, ScrubDeep};
ghost use Rattle.command_laws.specs.RunTerms.{EndsBlind};

use crate::opening::{open_writable, store_status};
use command_spec::Status;
use drive_states::Unit;
use qic_base::{Sink, Tape};
use volume_store::Room;

/// Opens the cartridge, where it isn't protected, and writes unreadable sectors again where they can be found.
pub fn scrub<T: Tape, K: Sink>(unit: &mut Unit<T>, room: Room, sink: &mut K) -> Status
    ensures { EndsBlind T.means K.means Scrub unit.old.tape unit.new.tape sink.old sink.new result }
{
    let mut store = match open_writable(unit, room) {
        Ok(store) => store,
        Err(status) => return status,
    };
    match store.scrub(unit, sink) {
        Ok(_) => Status::Done,
        Err(fault) => store_status(fault),
    }
}

/// Opens the cartridge as `scrub` does, and also writes one readable sector of a segment again that holds wrong bytes,
/// where the others tell which it is.
pub fn scrub_deep<T: Tape, K: Sink>(unit: &mut Unit<T>, room: Room, sink: &mut K) -> Status
    ensures { EndsBlind T.means K.means ScrubDeep unit.old.tape unit.new.tape sink.old sink.new result }
{
    let mut store = match open_writable(unit, room) {
        Ok(store) => store,
        Err(status) => return status,
    };
    match store.scrub_deep(unit, sink) {
        Ok(_) => Status::Done,
        Err(fault) => store_status(fault),
    }
}
