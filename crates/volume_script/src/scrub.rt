//! A cartridge scrubbed by a script.

ghost use Rattle.std.specs.Prelude.{◌≡◌, ◌≢◌, Err};
ghost use Rattle.command_spec.specs.declared.line.Line.TheVariants.{Scrub};
ghost use Rattle.volume_store.specs.Mounting.{KeepsStore, StoreFits};
ghost use Rattle.volume_script.specs.Items.{ItemEnds};

use crate::replies::reply_refused;
use drive_states::Unit;
use qic_base::{Sink, Source, StoreFault, Tape};
use volume_store::Store;

/// Writes unreadable sectors again where they can be found; a protected cartridge is refused.
pub fn scrub<T: Tape, S: Source, K: Sink>(
    store: &mut Store,
    unit: &mut Unit<T>,
    source: &mut S,
    sink: &mut K,
) -> Result<(), StoreFault>
    requires fits { StoreFits T.means store.old unit.old }
    ensures ends { ItemEnds T.means S.means K.means store.old store.new
        record { tape = unit.old.tape; source = source.old; sink = sink.old }
        record { tape = unit.new.tape; source = source.new; sink = sink.new } Scrub result }
    ensures fits { result ≢ Err StoreFault.Tape → StoreFits T.means store.new unit.new }
    ensures store { KeepsStore store.old store.new }
    ensures source { source.new ≡ source.old }
{
    match store.scrub(unit, sink) {
        Ok(_) => Ok(()),
        Err(fault) => reply_refused(fault, sink),
    }
}
