//! The line behind the last that may be a train.

ghost use Rattle.std.specs.Prelude.{◌≤◌, ◌≡◌, ◌≢◌, Err, is_some};
ghost use Rattle.hand_commands.specs.PulseLines.{HearsEnd};

use crate::pulses::fault::PulseFault;
use qic_base::{Source, SourceFailed};
use tape_script::{Train, TrainRead};

/// Reads the line behind the last that may be a train: the input is over there, or the line is at fault.
pub fn end_input<S: Source>(
    source: &mut S,
    buffer: &mut [u8; 128],
    line: u32,
    place: u64,
) -> Result<(), PulseFault>
    ensures hears { HearsEnd S.means source.old source.new line place result }
    ensures kept { S.means.keeps source.old source.new }
    ensures source_tells { is_some (S.means.left source.new) ≡
        is_some (S.means.left source.old) }
    ensures later { S.means.faults source.old ≤ S.means.faults source.new }
    ensures stood { result ≢ Err PulseFault.Source →
        S.means.faults source.new ≡ S.means.faults source.old }
{
    match Train::read(source, buffer) {
        Ok(TrainRead::End | TrainRead::Stop) => Ok(()),
        Ok(TrainRead::Bad { .. }) => Err(PulseFault::Script { line, place }),
        Ok(TrainRead::Train { .. }) => Err(PulseFault::Script { line, place }),
        Err(SourceFailed) => Err(PulseFault::Source),
    }
}
