//! The whole input.

ghost use Rattle.std.specs.Prelude.{◌≡◌, ◌≤◌, Err, is_some};
ghost use Rattle.qic_base.specs.Tape.{Rose};
ghost use Rattle.hand_commands.specs.PulseRuns.{PulsesEnd};

use crate::pulses::ending::end_input;
use crate::pulses::fault::PulseFault;
use crate::pulses::lines::carry_out_line;
use command_spec::MOST_LINES;
use drive_states::Unit;
use qic_base::{Sink, Source, Tape, TapeFailed};

/// Puts the cartridge in, and sends the trains of the source, each with a gap behind it. The sink gets the level that
/// each leaves on the track-0 line, `0` or `1` and a newline. The source is read to its end or up to and with the line
/// `end`, and nothing behind that. A failed call of the tape, the source or the sink ends the run with its fault.
pub fn run_pulses<T: Tape, S: Source, K: Sink>(
    unit: &mut Unit<T>,
    source: &mut S,
    sink: &mut K,
) -> Result<(), PulseFault>
    // The outcome of the plain machine; where a fault of the outside cut it off, the acts up to that one and no more.
    ensures ends { PulsesEnd T.means S.means K.means
        record { tape = unit.old.tape; source = source.old; sink = sink.old }
        record { tape = unit.new.tape; source = source.new; sink = sink.new }
        unit.new.drive result }

    // Each fault of the outside has its cause.
    ensures tape_fault { result ≡ Err PulseFault.Tape →
        Rose (T.means.faults unit.old.tape) (T.means.faults unit.new.tape) }
    ensures source_fault { result ≡ Err PulseFault.Source →
        Rose (S.means.faults source.old) (S.means.faults source.new) }
    ensures sink_fault { result ≡ Err PulseFault.Sink →
        Rose (K.means.faults sink.old) (K.means.faults sink.new) }

    // No count of faults falls.
    ensures tape_later { T.means.faults unit.old.tape ≤ T.means.faults unit.new.tape }
    ensures source_later { S.means.faults source.old ≤ S.means.faults source.new }
    ensures sink_later { K.means.faults sink.old ≤ K.means.faults sink.new }

    ensures kept { S.means.keeps source.old source.new }
    // The source tells its bytes, or none, as before.
    ensures source_tells { is_some (S.means.left source.new) ≡
        is_some (S.means.left source.old) }
{
    if let Err(TapeFailed) = unit.insert() {
        return Err(PulseFault::Tape);
    }
    let mut buffer = [0; 128];
    let mut place: u64 = 0;
    for line in 0..MOST_LINES {
        match carry_out_line(unit, source, sink, &mut buffer, line + 1, place) {
            Ok(Some(read)) => place += u64::from(read),
            Ok(None) => return Ok(()),
            Err(fault) => return Err(fault),
        }
    }
    end_input(source, &mut buffer, MOST_LINES + 1, place)
}
