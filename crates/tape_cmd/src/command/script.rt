//! The lines of an input carried out, one after the other.

ghost use Rattle.command_spec.specs.declared.words.Words.TheVariants.{Script};
ghost use Rattle.command_spec.specs.Machine.{CommandEnds};

use crate::Status;
use drive_states::Unit;
use host_commands::open;
use qic_base::{Sink, Source, Tape};
use volume_script::run_script;
use volume_store::Room;

/// Opens the cartridge once, carries out the lines of the source on it, and prints the reply of each as it goes.
pub fn script<T: Tape, S: Source, K: Sink>(
    unit: &mut Unit<T>,
    room: Room,
    source: &mut S,
    sink: &mut K,
) -> Status
    ensures ends { CommandEnds T.means S.means K.means Script
        record { tape = unit.old.tape; source = source.old; sink = sink.old }
        record { tape = unit.new.tape; source = source.new; sink = sink.new } result }
    ensures kept { S.means.keeps source.old source.new }
{
    let mut store = match open(unit, room) {
        Ok(store) => store,
        Err(status) => return status,
    };
    match run_script(&mut store, unit, source, sink) {
        Ok(()) => Status::Done,
        Err(status) => status,
    }
}
