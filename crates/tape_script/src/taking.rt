//! Bytes and lines are taken from a source: a line byte by byte, so that nothing behind it is read.

ghost use Rattle.qic_base.specs.Cause.{HasCause};
ghost use Rattle.qic_base.specs.SourceCalls.{TakesByte};
ghost use Rattle.tape_script.specs.Reading.{TakesLine, Skips};

use qic_base::{Source, SourceFailed};

/// What was taken in a line's place: nothing, at the end of the source; bytes with no newline, as many as a line may
/// have with it or all that were left; or so many bytes and then a newline.
#[derive(Clone, Copy)]
pub enum Taken {
    End,
    Open { read: u8 },
    Line { len: u8 },
}

/// The next byte, or none at the end of the source.
fn take_byte<S: Source>(source: &mut S) -> Result<Option<u8>, SourceFailed>
    ensures took { TakesByte (S.means.left source.old) (S.means.left source.new) result }
    ensures kept { S.means.keeps source.old source.new }
    ensures cause { HasCause (S.means.faults source.old) (S.means.faults source.new) result }
{
    let mut byte = [0];
    match source.read(&mut byte) {
        Ok(0) => Ok(None),
        Ok(_) => Ok(Some(byte[0])),
        Err(fault) => Err(fault),
    }
}

/// Takes a line into the buffer, without its newline.
pub fn take_line<S: Source>(source: &mut S, buffer: &mut [u8; 128]) -> Result<Taken, SourceFailed>
    ensures took { TakesLine S.means source.old source.new buffer.new result }
    ensures kept { S.means.keeps source.old source.new }
    ensures cause { HasCause (S.means.faults source.old) (S.means.faults source.new) result }
{
    let mut len: u8 = 0;
    while len < 128 {
        match take_byte(source) {
            Ok(Some(b'\n')) => return Ok(Taken::Line { len }),
            Ok(Some(byte)) => {
                buffer[usize::from(len)] = byte;
                len += 1;
            }
            Ok(None) if len == 0 => return Ok(Taken::End),
            Ok(None) => return Ok(Taken::Open { read: len }),
            Err(fault) => return Err(fault),
        }
    }
    Ok(Taken::Open { read: len })
}

/// Reads this many bytes and drops them. The number of bytes skipped is less exactly at the end of the source.
pub fn skip<S: Source>(source: &mut S, bytes: u32) -> Result<u32, SourceFailed>
    ensures skipped { Skips S.means source.old source.new bytes result }
    ensures kept { S.means.keeps source.old source.new }
    ensures cause { HasCause (S.means.faults source.old) (S.means.faults source.new) result }
{
    let mut scratch = [0; 1024];
    let mut left = bytes;
    while left > 0 {
        let asked = left.min(1024) as usize;
        match source.read(&mut scratch[..asked]) {
            Ok(0) => return Ok(bytes - left),
            Ok(count) => left -= count as u32,
            Err(fault) => return Err(fault),
        }
    }
    Ok(bytes)
}
