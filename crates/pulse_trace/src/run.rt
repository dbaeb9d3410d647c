//! A run of the program.

ghost use Rattle.std.specs.Prelude.{◌≡◌, ◌≢◌, ◌≤◌, map, string_bytes};
ghost use Rattle.qic_base.specs.Tape.{Rose};
ghost use Rattle.pulse_trace.specs.Runs.{Runs, status_told, status_refused};

use crate::status::TraceStatus;
use program_words::{BadGap, read_gap};
use pulse_dialogue::{TraceFault, tell_recording};
use qic_base::{Sink, Source};
use std::alloc::Global;
use std::io::ErrorKind;

/// The status of a run whose telling ended so.
fn told(answer: Result<(), TraceFault>) -> TraceStatus
    ensures { result ≡ status_told answer }
{
    match answer {
        Ok(()) => TraceStatus::Done,
        Err(TraceFault::Line { line, place }) => TraceStatus::TraceFault { line, place },
        Err(TraceFault::Source) => TraceStatus::SourceFault,
        Err(TraceFault::Sink) => TraceStatus::SinkFault,
    }
}

/// The status of a run whose words gave no gap.
fn refused(bad: BadGap) -> TraceStatus
    ensures { result ≡ status_refused bad }
{
    match bad {
        BadGap::Refused => TraceStatus::Usage,
        BadGap::NoMemory => TraceStatus::NoMemory,
    }
}

/// The status of a run whose words could not be had: there was no memory for them, or one is no UTF-8 text, so none of
/// the words that the command takes.
pub fn unread(kind: ErrorKind) -> TraceStatus
    ensures memory { kind ≡ ErrorKind.OutOfMemory → result ≡ TraceStatus.NoMemory }
    ensures usage { kind ≢ ErrorKind.OutOfMemory → result ≡ TraceStatus.Usage }
{
    match kind {
        ErrorKind::OutOfMemory => TraceStatus::NoMemory,
        _ => TraceStatus::Usage,
    }
}

/// Reads the words of the command line, the program's name the first of them, and then the recording of the source,
/// whose dialogue it writes to the sink. Memory is taken for the words, before the first call of the source or the
/// sink.
pub fn run_trace<S: Source, K: Sink>(
    alloc: Global,
    words: &Vec<String>,
    source: &mut S,
    sink: &mut K,
) -> TraceStatus
    // What the words and the recording ask for; where a fault of the outside broke it off, a front of it.
    ensures runs { Runs S.means K.means (map string_bytes words.now.items)
        record { source = source.old; sink = sink.old }
        record { source = source.new; sink = sink.new } result }

    // Each fault of the outside has its cause.
    ensures source_fault { result ≡ TraceStatus.SourceFault →
        Rose (S.means.faults source.old) (S.means.faults source.new) }
    ensures sink_fault { result ≡ TraceStatus.SinkFault →
        Rose (K.means.faults sink.old) (K.means.faults sink.new) }

    // No count of faults falls.
    ensures source_later { S.means.faults source.old ≤ S.means.faults source.new }
    ensures sink_later { K.means.faults sink.old ≤ K.means.faults sink.new }

    ensures kept { S.means.keeps source.old source.new }
{
    match read_gap(alloc, words) {
        Ok(gap) => told(tell_recording(gap, source, sink)),
        Err(bad) => refused(bad),
    }
}
