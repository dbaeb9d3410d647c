//! How a run ends, and what is printed of that.

ghost use Rattle.std.specs.Prelude.{◌≡◌, ◌≢◌, false};
ghost use Rattle.qic_base.specs.SinkCalls.{Writes};
ghost use Rattle.dump_spec.specs.declared.status.Status.TheVariants as ends;
ghost use Rattle.tape_salvage.specs.Endings.{ending_text, line_of};

use dump_answers::Ending;
use dump_spec::Status;
use dump_volumes::{write_status, write_warning};
use qic_base::{Sink, SinkFailed, write_text};
use std::io::ErrorKind;

/// What is told of words that are no command.
const USAGE: &str =
    "usage: tape_salvage [OPTIONS] DUMP info|list|check|volume N|segments A B; A is at most B, --sure is for volume and segments, --whole for volume\n";

/// The status of a run whose words could not be had: there was no memory for them, or one is no UTF-8 text, so none of
/// the words that the command takes.
pub fn unread(kind: ErrorKind) -> Status
    ensures memory { kind ≡ ErrorKind.OutOfMemory → result ≡ ends.NoMemory }
    ensures usage { kind ≢ ErrorKind.OutOfMemory → result ≡ ends.Usage }
{
    match kind {
        ErrorKind::OutOfMemory => Status::NoMemory,
        _ => Status::Usage,
    }
}

/// The ending of a run that read no table.
pub fn make_ending(status: Status) -> Ending
    ensures status { result.status ≡ status }
    ensures warned { result.warned ≡ false }
{
    Ending {
        status,
        warned: false,
    }
}

/// Writes the line of a status, that of the usage, too.
fn write_line<K: Sink>(status: &Status, sink: &mut K) -> Result<(), SinkFailed>
    ensures { Writes K.means sink.old sink.new (line_of status.now) result }
{
    match status {
        Status::Usage => write_text(USAGE.as_bytes(), sink),
        status => write_status(status, sink),
    }
}

/// Writes what is told of an ending: that the table is not sure, and then the line of the status.
pub fn write_ending<K: Sink>(ending: &Ending, sink: &mut K) -> Result<(), SinkFailed>
    ensures { Writes K.means sink.old sink.new (ending_text ending.now) result }
{
    if ending.warned {
        match write_warning(sink) {
            Ok(()) => write_line(&ending.status, sink),
            Err(fault) => Err(fault),
        }
    } else {
        write_line(&ending.status, sink)
    }
}
