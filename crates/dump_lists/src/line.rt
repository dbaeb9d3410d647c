//! The lines of a list.

ghost use Rattle.std.specs.Prelude.{◌≡◌, ◌<◌, length, OnOk};
ghost use Rattle.qic_base.specs.Cause.{HasCause};
ghost use Rattle.rescue_map.specs.Lines.{content_of};
ghost use Rattle.rescue_map.specs.Reads.{left_of, IsAhead};
ghost use Rattle.dump_lists.specs.Reads.{TakesLine};

use qic_base::{Source, SourceFailed};
use rescue_map::{Ahead, next_byte};

/// So many bytes without a newline are no line: 31, a carriage return and one more.
pub const TOO_LONG: usize = 33;

/// What was read in a line's place: the end before any byte; the bytes of a line, and whether a newline ended it; or more
/// bytes than a line has.
#[derive(Clone, Copy)]
pub enum LineRead {
    End,
    Line { len: usize, ended: bool },
    Long,
}

/// The next line of a list, whose bytes are the first of `line`.
pub fn read_line<S: Source>(
    source: &mut S,
    buffer: &mut [u8],
    ahead: &mut Ahead,
    line: &mut [u8; TOO_LONG],
) -> Result<LineRead, SourceFailed>
    requires room { 0 < length buffer.old }
    requires within { IsAhead buffer.old ahead.old }
    ensures took { TakesLine (left_of S.means source.old buffer.old ahead.old)
        (left_of S.means source.new buffer.new ahead.new) line.new result }
    ensures within { OnOk result (IsAhead buffer.new ahead.new) }
    ensures kept { S.means.keeps source.old source.new }
    ensures cause { HasCause (S.means.faults source.old) (S.means.faults source.new) result }
{
    for len in 0..TOO_LONG {
        match next_byte(source, buffer, ahead) {
            Ok(Some(b'\n')) => return Ok(LineRead::Line { len, ended: true }),
            Ok(Some(byte)) => line[len] = byte,
            Ok(None) if len == 0 => return Ok(LineRead::End),
            Ok(None) => return Ok(LineRead::Line { len, ended: false }),
            Err(fault) => return Err(fault),
        }
    }
    Ok(LineRead::Long)
}

/// The bytes of a line without the carriage return before its newline.
pub fn content(line: &[u8], ended: bool) -> &[u8]
    ensures { result.now ≡ content_of record { bytes = line.now; ended = ended } }
{
    if ended && !line.is_empty() && line[line.len() - 1] == b'\r' {
        &line[..line.len() - 1]
    } else {
        line
    }
}
