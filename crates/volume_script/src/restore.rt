//! A volume of a script given back.

ghost use Rattle.std.specs.Prelude.{◌≡◌, ◌≢◌, Err};
ghost use Rattle.command_spec.specs.declared.line.Line.TheVariants.{Restore};
ghost use Rattle.volume_store.specs.Mounting.{KeepsStore, StoreFits};
ghost use Rattle.volume_script.specs.Items.{ItemEnds};

use crate::replies::{replied, reply_refused, write_restored};
use drive_states::Unit;
use qic_base::{Sink, Source, StoreFault, Tape};
use volume_store::{Form, Store};

/// Gives a volume's bytes segment by segment, each behind a line with their number, and last the volume's number and
/// length.
pub fn restore<T: Tape, S: Source, K: Sink>(
    store: &mut Store,
    unit: &mut Unit<T>,
    number: u32,
    source: &mut S,
    sink: &mut K,
) -> Result<(), StoreFault>
    requires fits { StoreFits T.means store.old unit.old }
    ensures ends { ItemEnds T.means S.means K.means store.old store.new
        record { tape = unit.old.tape; source = source.old; sink = sink.old }
        record { tape = unit.new.tape; source = source.new; sink = sink.new } (Restore number) result }
    ensures fits { result ≢ Err StoreFault.Tape → StoreFits T.means store.new unit.new }
    ensures store { KeepsStore store.old store.new }
    ensures source { source.new ≡ source.old }
{
    match store.restore(unit, number, Form::Lined, sink) {
        Ok(bytes) => replied(write_restored(number, bytes, sink)),
        Err(fault) => reply_refused(fault, sink),
    }
}
