//! The lines of a map.

ghost use Rattle.std.specs.Prelude.{◌<◌, length, OnOk};
ghost use Rattle.qic_base.specs.Cause.{HasCause};
ghost use Rattle.rescue_map.specs.Reads.{left_of, IsAhead, TakesLine};

use crate::ahead::{Ahead, next_byte};
use crate::scan::Scan;
use crate::words::LineWords;
use qic_base::{Source, SourceFailed};

/// What was read in a line's place: the end before any byte; a line's words, and whether a newline ended it; or as many
/// bytes as no line has.
#[derive(Clone, Copy)]
pub enum LineRead {
    End,
    Line { words: LineWords, ended: bool },
    Endless,
}

/// The next line of a map.
pub fn read_line<S: Source>(
    source: &mut S,
    buffer: &mut [u8],
    ahead: &mut Ahead,
) -> Result<LineRead, SourceFailed>
    requires room { 0 < length buffer.old }
    requires within { IsAhead buffer.old ahead.old }
    ensures took { TakesLine (left_of S.means source.old buffer.old ahead.old)
        (left_of S.means source.new buffer.new ahead.new) result }
    ensures within { OnOk result (IsAhead buffer.new ahead.new) }
    ensures kept { S.means.keeps source.old source.new }
    ensures cause { HasCause (S.means.faults source.old) (S.means.faults source.new) result }
{
    let mut scan = Scan::new();
    for read in 0..u64::MAX {
        match next_byte(source, buffer, ahead) {
            Ok(Some(b'\n')) => {
                return Ok(LineRead::Line {
                    words: scan.finish(true),
                    ended: true,
                });
            }
            Ok(Some(byte)) => scan.take(byte),
            Ok(None) if read == 0 => return Ok(LineRead::End),
            Ok(None) => {
                return Ok(LineRead::Line {
                    words: scan.finish(false),
                    ended: false,
                });
            }
            Err(fault) => return Err(fault),
        }
    }
    Ok(LineRead::Endless)
}
