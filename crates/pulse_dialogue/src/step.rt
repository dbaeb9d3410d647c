//! A line that is read and told.

ghost use Rattle.std.specs.Prelude.{◌≡◌, ◌≢◌, ◌≤◌, Err};
ghost use Rattle.qic_base.specs.Tape.{Rose};
ghost use Rattle.pulse_dialogue.specs.Dialogue.{IsSound};
ghost use Rattle.pulse_dialogue.specs.Steps.{Hears, HearsEnd};
ghost use Rattle.pulse_dialogue.specs.Telling.{HasRoom};

use crate::TraceFault;
use crate::line::{Line, LineRead};
use crate::teller::Teller;
use qic_base::{Sink, SinkFailed, Source, SourceFailed};

/// Reads a line and tells it: the number of its bytes, or none where the input is over. `line` is the line's number and
/// `place` the number of bytes before it.
pub fn tell_line<S: Source, K: Sink>(
    teller: &mut Teller,
    source: &mut S,
    sink: &mut K,
    buffer: &mut [u8; 128],
    line: u32,
    place: u64,
) -> Result<Option<u8>, TraceFault>
    requires sound { IsSound teller.old.context }
    requires room { HasRoom teller.old.open_train }
    ensures hears { Hears S.means K.means
        record { teller = teller.old; source = source.old; sink = sink.old }
        record { teller = teller.new; source = source.new; sink = sink.new } line place result }
    ensures kept { S.means.keeps source.old source.new }
    ensures later { S.means.faults source.old ≤ S.means.faults source.new }
    ensures stood { result ≢ Err TraceFault.Source →
        S.means.faults source.new ≡ S.means.faults source.old }
    ensures cause { result ≡ Err TraceFault.Source →
        Rose (S.means.faults source.old) (S.means.faults source.new) }
{
    match Line::read(source, buffer) {
        Ok(LineRead::Line { line: next, read }) => {
            if next.time() < teller.time {
                return Err(TraceFault::Line { line, place });
            }
            match teller.tell(next, sink) {
                Ok(()) => Ok(Some(read)),
                Err(SinkFailed) => Err(TraceFault::Sink),
            }
        }
        Ok(LineRead::End) => match teller.end_train(sink) {
            Ok(()) => Ok(None),
            Err(SinkFailed) => Err(TraceFault::Sink),
        },
        Ok(LineRead::Bad) => Err(TraceFault::Line { line, place }),
        Err(SourceFailed) => Err(TraceFault::Source),
    }
}

/// Reads behind the last line that there may be: the input is over there, or the line is at fault.
pub fn tell_end<S: Source, K: Sink>(
    teller: &mut Teller,
    source: &mut S,
    sink: &mut K,
    buffer: &mut [u8; 128],
    line: u32,
    place: u64,
) -> Result<(), TraceFault>
    requires { IsSound teller.old.context }
    ensures hears { HearsEnd S.means K.means
        record { teller = teller.old; source = source.old; sink = sink.old }
        record { teller = teller.new; source = source.new; sink = sink.new } line place result }
    ensures kept { S.means.keeps source.old source.new }
    ensures later { S.means.faults source.old ≤ S.means.faults source.new }
    ensures stood { result ≢ Err TraceFault.Source →
        S.means.faults source.new ≡ S.means.faults source.old }
    ensures cause { result ≡ Err TraceFault.Source →
        Rose (S.means.faults source.old) (S.means.faults source.new) }
{
    match Line::read(source, buffer) {
        Ok(LineRead::End) => match teller.end_train(sink) {
            Ok(()) => Ok(()),
            Err(SinkFailed) => Err(TraceFault::Sink),
        },
        Ok(LineRead::Line { .. }) => Err(TraceFault::Line { line, place }),
        Ok(LineRead::Bad) => Err(TraceFault::Line { line, place }),
        Err(SourceFailed) => Err(TraceFault::Source),
    }
}
