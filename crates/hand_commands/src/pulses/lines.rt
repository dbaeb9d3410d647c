//! A line that may be a train.

ghost use Rattle.std.specs.Prelude.{◌≡◌, is_some};
ghost use Rattle.hand_commands.specs.PulseLines.{Hears};

use crate::pulses::fault::PulseFault;
use crate::pulses::sending::{level_text, send_train};
use drive_states::Unit;
use qic_base::{Sink, SinkFailed, Source, SourceFailed, Tape, TapeFailed, write_text};
use tape_script::{Train, TrainRead};

/// Reads a line and carries it out: the number of its bytes, or none where the input is over. `line` is the line's
/// number and `place` the number of bytes before it.
pub fn carry_out_line<T: Tape, S: Source, K: Sink>(
    unit: &mut Unit<T>,
    source: &mut S,
    sink: &mut K,
    buffer: &mut [u8; 128],
    line: u32,
    place: u64,
) -> Result<Option<u8>, PulseFault>
    requires no_pulse { unit.old.drive.train ≡ 0 }
    ensures hears { Hears T.means S.means K.means
        record { tape = unit.old.tape; source = source.old; sink = sink.old }
        record { tape = unit.new.tape; source = source.new; sink = sink.new }
        unit.old.drive unit.new.drive line place result }
    ensures kept { S.means.keeps source.old source.new }
    ensures source_tells { is_some (S.means.left source.new) ≡
        is_some (S.means.left source.old) }
{
    match Train::read(source, buffer) {
        Ok(TrainRead::Train { pulses, read }) => {
            if let Err(TapeFailed) = send_train(unit, pulses) {
                return Err(PulseFault::Tape);
            }
            match write_text(level_text(unit.line()), sink) {
                Ok(()) => Ok(Some(read)),
                Err(SinkFailed) => Err(PulseFault::Sink),
            }
        }
        Ok(TrainRead::End | TrainRead::Stop) => Ok(None),
        Ok(TrainRead::Bad { .. }) => Err(PulseFault::Script { line, place }),
        Err(SourceFailed) => Err(PulseFault::Source),
    }
}
