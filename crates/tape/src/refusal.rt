//! Why an image can't be opened, and why a status came: a line after that of the status.

ghost use Rattle.std.specs.Prelude.{codes};
ghost use Rattle.qic_base.specs.SinkCalls.{Writes};
ghost use Rattle.file_hints.specs.Lines.{refusal_text};
ghost use Rattle.status_hints.specs.Lines.{status_text};

use command_spec::Status;
use file_hints::refusal_line;
use qic_base::{Sink, SinkFailed, write_text};
use status_hints::status_line;
use tape_files::{Failure, NoImage};

/// Writes the line that tells why the image can't be opened.
pub fn write_refusal<K: Sink>(cause: NoImage, path: &str, sink: &mut K) -> Result<(), SinkFailed>
    ensures { Writes K.means sink.old sink.new (refusal_text (codes "tape") cause path.now) result }
{
    write_text(refusal_line("tape", cause, path).bytes(), sink)
}

/// Writes the line that says why a status came, or what to do.
pub fn write_why<K: Sink>(
    image: &str,
    status: Status,
    restores: bool,
    failure: Option<Failure>,
    sink: &mut K,
) -> Result<(), SinkFailed>
    ensures { Writes K.means sink.old sink.new
        (status_text (codes "tape") image.now status restores failure) result }
{
    write_text(
        status_line("tape", image, status, restores, failure).bytes(),
        sink,
    )
}
