//! The line behind the last that may be an item, and the last reply.

ghost use Rattle.std.specs.Prelude.{◌≡◌, ◌≢◌, ◌≤◌, Err, is_some};
ghost use Rattle.command_spec.specs.declared.line.Line.TheVariants.{End as end_line};
ghost use Rattle.volume_script.specs.Ending.{HearsEnd, RepliesEnd};

use command_spec::Status;
use qic_base::{Sink, SinkFailed, Source, SourceFailed, write_text};
use tape_script::{Line, LineRead, read_line};

/// States that a line isn't the last one, and does nothing.
fn is_no_end(_line: &Line)
    requires { _line.now ≢ end_line }
    ensures { _line.now ≢ end_line }
{}

/// Reads the line behind the last that may be an item: the input is over there, or the line is at fault.
pub fn end_input<S: Source>(
    source: &mut S,
    buffer: &mut [u8; 128],
    line: u32,
    place: u64,
) -> Result<(), Status>
    ensures hears { HearsEnd S.means source.old source.new line place result }
    ensures kept { S.means.keeps source.old source.new }
    ensures tells { is_some (S.means.left source.new) ≡ is_some (S.means.left source.old) }
    ensures later { S.means.faults source.old ≤ S.means.faults source.new }
    ensures stood { result ≢ Err Status.SourceFault →
        S.means.faults source.new ≡ S.means.faults source.old }
{
    match read_line(source, buffer) {
        Ok(LineRead::End) => Ok(()),
        Ok(
            LineRead::Line {
                line: Line::End,
                ..
            },
        ) => Ok(()),
        Ok(LineRead::Line { line: other, .. }) => {
            is_no_end(&other);
            Err(Status::ScriptFault { line, place })
        }
        Ok(LineRead::Bad { .. }) => Err(Status::ScriptFault { line, place }),
        Err(SourceFailed) => Err(Status::SourceFault),
    }
}

/// Writes the last reply.
pub fn write_end<K: Sink>(sink: &mut K) -> Result<(), Status>
    ensures { RepliesEnd K.means sink.old sink.new result }
{
    match write_text(b"end\n", sink) {
        Ok(()) => Ok(()),
        Err(SinkFailed) => Err(Status::SinkFault),
    }
}
