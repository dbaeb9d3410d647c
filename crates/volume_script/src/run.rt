//! The whole script.

ghost use Rattle.std.specs.Prelude.{◌≡◌, ◌≢◌, ◌≤◌, Err, is_some};
ghost use Rattle.qic_base.specs.Tape.{Rose};
ghost use Rattle.volume_store.specs.Appending.{KeepsFormat};
ghost use Rattle.volume_store.specs.Mounting.{StoreFits};
ghost use Rattle.volume_script.specs.Runs.{ScriptEnds};

use crate::ending::{end_input, write_end};
use crate::line::carry_out_line;
use command_spec::{MOST_LINES, Status};
use drive_states::Unit;
use qic_base::{Sink, Source, Tape};
use volume_store::Store;

/// Carries out the lines of the source one after the other over the store of the unit's cartridge, and prints the reply
/// of each; last `end`. A line that is refused is replied to, and the script goes on. The source is read to its end or
/// up to and with the line `end`, and nothing behind that. A failed call of the tape, the source or the sink ends the
/// script with its fault, and so does a line that is none.
pub fn run_script<T: Tape, S: Source, K: Sink>(
    store: &mut Store,
    unit: &mut Unit<T>,
    source: &mut S,
    sink: &mut K,
) -> Result<(), Status>
    requires fits { StoreFits T.means store.old unit.old }
    // The outcome of the plain machine; where a fault of the outside cut it off, the acts up to that one and no more.
    ensures ends { ScriptEnds T.means S.means K.means store.old
        record { tape = unit.old.tape; source = source.old; sink = sink.old }
        record { tape = unit.new.tape; source = source.new; sink = sink.new } result }
    // The store is that of the cartridge as it stands, but after a fault of the tape.
    ensures fits { result ≢ Err Status.TapeFault → StoreFits T.means store.new unit.new }
    ensures format { KeepsFormat store.old store.new }

    // Each fault of the outside has its cause.
    ensures tape_fault { result ≡ Err Status.TapeFault →
        Rose (T.means.faults unit.old.tape) (T.means.faults unit.new.tape) }
    ensures source_fault { result ≡ Err Status.SourceFault →
        Rose (S.means.faults source.old) (S.means.faults source.new) }
    ensures sink_fault { result ≡ Err Status.SinkFault →
        Rose (K.means.faults sink.old) (K.means.faults sink.new) }

    // No count of faults falls.
    ensures tape_later { T.means.faults unit.old.tape ≤ T.means.faults unit.new.tape }
    ensures source_later { S.means.faults source.old ≤ S.means.faults source.new }
    ensures sink_later { K.means.faults sink.old ≤ K.means.faults sink.new }

    ensures kept { S.means.keeps source.old source.new }
    // The source tells its bytes just where it did.
    ensures tells { is_some (S.means.left source.new) ≡ is_some (S.means.left source.old) }
{
    let mut buffer = [0; 128];
    let mut place: u64 = 0;
    for line in 0..MOST_LINES {
        match carry_out_line(store, unit, source, sink, &mut buffer, line + 1, place)? {
            Some(read) => place += read,
            None => return write_end(sink),
        }
    }
    end_input(source, &mut buffer, MOST_LINES + 1, place)?;
    write_end(sink)
}
