//! One line of a script carried out, with what follows it.

ghost use Rattle.std.specs.Prelude.{◌≡◌, ◌≢◌, Err, is_some};
ghost use Rattle.command_spec.specs.declared.line.Line.TheVariants.{List as list_line, End as end_line};
ghost use Rattle.volume_store.specs.Appending.{KeepsFormat};
ghost use Rattle.volume_store.specs.Mounting.{StoreFits};
ghost use Rattle.volume_script.specs.Items.{ItemEnds};

use crate::append::append;
use crate::lose::lose;
use crate::replies::replied;
use crate::restore::restore;
use crate::scrub::scrub;
use drive_states::Unit;
use qic_base::{Sink, Source, StoreFault, Tape};
use tape_script::Line;
use volume_store::{Store, write_list};

/// Prints the volumes as they are listed now.
fn list<T: Tape, S: Source, K: Sink>(
    store: &mut Store,
    unit: &mut Unit<T>,
    source: &mut S,
    sink: &mut K,
) -> Result<(), StoreFault>
    ensures ends { ItemEnds T.means S.means K.means store.old store.new
        record { tape = unit.old.tape; source = source.old; sink = sink.old }
        record { tape = unit.new.tape; source = source.new; sink = sink.new } list_line result }
    ensures store { store.new ≡ store.old }
    ensures unit { unit.new ≡ unit.old }
    ensures source { source.new ≡ source.old }
{
    replied(write_list(store, sink))
}

/// Carries out a line that isn't `end`, over the store of the unit's cartridge.
pub fn carry_out<T: Tape, S: Source, K: Sink>(
    store: &mut Store,
    unit: &mut Unit<T>,
    line: &Line,
    source: &mut S,
    sink: &mut K,
) -> Result<(), StoreFault>
    requires fits { StoreFits T.means store.old unit.old }
    requires not_end { line.now ≢ end_line }
    ensures ends { ItemEnds T.means S.means K.means store.old store.new
        record { tape = unit.old.tape; source = source.old; sink = sink.old }
        record { tape = unit.new.tape; source = source.new; sink = sink.new } line.now result }
    ensures other { line.now ≢ end_line }
    ensures fits { result ≢ Err StoreFault.Tape → StoreFits T.means store.new unit.new }
    ensures format { KeepsFormat store.old store.new }
    ensures kept { S.means.keeps source.old source.new }
    ensures tells { is_some (S.means.left source.new) ≡ is_some (S.means.left source.old) }
{
    match line {
        Line::Append { name, length, date } => {
            append(store, unit, name, *length, *date, source, sink)
        }
        Line::List => list(store, unit, source, sink),
        Line::Restore { number } => restore(store, unit, *number, source, sink),
        Line::Scrub => scrub(store, unit, source, sink),
        Line::Lose { segment, sector } => lose(store, unit, *segment, *sector, source, sink),
        Line::End => unreachable!("the end is no item"),
    }
}
