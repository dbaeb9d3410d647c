//! The whole recording.

ghost use Rattle.std.specs.Prelude.{◌≡◌, ◌≤◌, Err};
ghost use Rattle.qic_base.specs.Tape.{Rose};
ghost use Rattle.pulse_dialogue.specs.Runs.{Tells};

use crate::TraceFault;
use crate::step::{tell_end, tell_line};
use crate::teller::Teller;
use qic_base::{Sink, Source};

/// The most lines of a recording.
const MOST_LINES: u32 = 1_048_576;

/// Reads a recording from the source, line by line, and writes its dialogue to the sink. Pulses that come at most `gap`
/// microseconds after one another, with no sample between, are one train. A failed call of the source or the sink ends
/// it with its fault.
pub fn tell_recording<S: Source, K: Sink>(
    gap: u32,
    source: &mut S,
    sink: &mut K,
) -> Result<(), TraceFault>
    // The dialogue of the recording, or where a fault of the outside broke it off a front of it.
    ensures tells { Tells S.means K.means gap
        record { source = source.old; sink = sink.old }
        record { source = source.new; sink = sink.new } result }

    // Each fault of the outside has its cause.
    ensures source_fault { result ≡ Err TraceFault.Source →
        Rose (S.means.faults source.old) (S.means.faults source.new) }
    ensures sink_fault { result ≡ Err TraceFault.Sink →
        Rose (K.means.faults sink.old) (K.means.faults sink.new) }

    // No count of faults falls.
    ensures source_later { S.means.faults source.old ≤ S.means.faults source.new }
    ensures sink_later { K.means.faults sink.old ≤ K.means.faults sink.new }

    ensures kept { S.means.keeps source.old source.new }
{
    let mut teller = Teller::new(gap);
    let mut buffer = [0; 128];
    let mut place: u64 = 0;
    for line in 0..MOST_LINES {
        match tell_line(&mut teller, source, sink, &mut buffer, line + 1, place) {
            Ok(Some(read)) => place += u64::from(read),
            Ok(None) => return Ok(()),
            Err(fault) => return Err(fault),
        }
    }
    tell_end(
        &mut teller,
        source,
        sink,
        &mut buffer,
        MOST_LINES + 1,
        place,
    )
}
