//! The volumes of a mounted cartridge, listed.

ghost use Rattle.std.specs.Prelude.{◌≡◌};
ghost use Rattle.qic_base.specs.SinkCalls.{Writes};
ghost use Rattle.command_spec.specs.Lines.{list_text};

use crate::store::Store;
use crate::volume_text::{write_count, write_volume_line};
use qic_base::{Sink, SinkFailed};

/// Writes a line for each volume, and how many there are. A failure leaves a front of them written.
pub fn write_list<K: Sink>(store: &Store, sink: &mut K) -> Result<(), SinkFailed>
    ensures { Writes K.means sink.old sink.new
        (list_text store.now.words store.now.entries) result }
{
    for index in 0..store.count() {
        let written = write_volume_line(index + 1, store.entry(index), store.length(index), sink);
        if let Err(fault) = written {
            return Err(fault);
        }
    }
    write_count(store.count(), sink)
}
