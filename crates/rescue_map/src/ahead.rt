//! Bytes of a source, read ahead into a buffer.

ghost use Rattle.std.specs.Prelude.{◌≡◌, ◌<◌, [], length, OnOk};
ghost use Rattle.qic_base.specs.Cause.{HasCause};
ghost use Rattle.qic_base.specs.SourceCalls.{WereGiven, NoneLeft, TakesByte};
ghost use Rattle.rescue_map.specs.Reads.{left_of, IsAhead};

use qic_base::{Source, SourceFailed};

/// The bytes of a buffer that were read and not taken: those from `at` up to `end`.
#[derive(Clone, Copy)]
pub struct Ahead {
    pub at: usize,
    pub end: usize,
}

/// Reads on where no byte is left in the buffer.
fn refill<S: Source>(
    source: &mut S,
    buffer: &mut [u8],
    ahead: &mut Ahead,
) -> Result<(), SourceFailed>
    requires room { 0 < length buffer.old }
    requires within { IsAhead buffer.old ahead.old }
    ensures gave { WereGiven (left_of S.means source.old buffer.old ahead.old)
        (left_of S.means source.new buffer.new ahead.new) [] }
    ensures ended { OnOk result (ahead.new.at ≡ ahead.new.end →
        NoneLeft (left_of S.means source.new buffer.new ahead.new)) }
    ensures within { OnOk result (IsAhead buffer.new ahead.new) }
    ensures kept { S.means.keeps source.old source.new }
    ensures cause { HasCause (S.means.faults source.old) (S.means.faults source.new) result }
{
    if ahead.at < ahead.end {
        return Ok(());
    }
    match source.read(buffer) {
        Ok(count) => {
            *ahead = Ahead { at: 0, end: count };
            Ok(())
        }
        Err(fault) => Err(fault),
    }
}

/// The next byte, or none at the end of the source.
pub fn next_byte<S: Source>(
    source: &mut S,
    buffer: &mut [u8],
    ahead: &mut Ahead,
) -> Result<Option<u8>, SourceFailed>
    requires room { 0 < length buffer.old }
    requires within { IsAhead buffer.old ahead.old }
    ensures took { TakesByte (left_of S.means source.old buffer.old ahead.old)
        (left_of S.means source.new buffer.new ahead.new) result }
    ensures within { OnOk result (IsAhead buffer.new ahead.new) }
    ensures kept { S.means.keeps source.old source.new }
    ensures cause { HasCause (S.means.faults source.old) (S.means.faults source.new) result }
{
    match refill(source, buffer, ahead) {
        Ok(()) => {}
        Err(fault) => return Err(fault),
    }
    if ahead.at == ahead.end {
        return Ok(None);
    }
    let byte = buffer[ahead.at];
    ahead.at += 1;
    Ok(Some(byte))
}
