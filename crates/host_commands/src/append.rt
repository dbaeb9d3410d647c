//! A volume appended to a cartridge.

ghost use Rattle.std.specs.Prelude.{◌<◌, ◌^◌};
ghost use Rattle.cartridge_spec.specs.Formatting.{IsLabel};
ghost use Rattle.command_spec.specs.declared.words.Words.TheVariants.{Append};
ghost use Rattle.command_spec.specs.Machine.{CommandEnds};

use crate::opening::{open_writable, store_status};
use command_spec::Status;
use drive_states::Unit;
use hand_commands::printed;
use qic_base::{Name, Sink, Source, Tape, write_text};
use volume_store::{Room, appended_text};

/// Opens the cartridge, where it isn't protected, and appends the whole input as a volume. Prints its number, its
/// length in bytes, and its first and its last segment.
pub fn append<T: Tape, S: Source, K: Sink>(
    unit: &mut Unit<T>,
    room: Room,
    name: &Name,
    date: u32,
    source: &mut S,
    sink: &mut K,
) -> Status
    requires name { IsLabel name.now }
    requires date { date < 2 ^ 32 }
    ensures ends { CommandEnds T.means S.means K.means (Append name.now date)
        record { tape = unit.old.tape; source = source.old; sink = sink.old }
        record { tape = unit.new.tape; source = source.new; sink = sink.new } result }
    ensures kept { S.means.keeps source.old source.new }
{
    let mut store = match open_writable(unit, room) {
        Ok(store) => store,
        Err(status) => return status,
    };
    match store.append(unit, name, date, None, source) {
        Ok(appended) => printed(write_text(appended_text(&appended).bytes(), sink)),
        Err(fault) => store_status(fault),
    }
}
