//! The lines of a recording.

ghost use Rattle.std.specs.Prelude.{◌≡◌, ◌≢◌, ◌≤◌, ◌-◌, length, slice_index, MatchOption};
ghost use Rattle.qic_base.specs.Cause.{HasCause};
ghost use Rattle.pulse_dialogue.specs.Lines.{IsLine, IsNoLine, time_of, level_digit};
ghost use Rattle.pulse_dialogue.specs.Reading.{ReadsLine};

use qic_base::{Source, SourceFailed};
use tape_script::{Taken, read_number, take_line};

/// A line: a pulse, or a sample of the level of the track-0 line. The time is in microseconds, at most 999,999,999.
#[derive(Clone, Copy, PartialEq, Eq)]
pub enum Line {
    Pulse { time: u32 },
    Sample { time: u32, level: bool },
}

/// What was read in a line's place: the end of the source before any byte; bytes that are no line; or a line, with the
/// number of bytes that it took, its newline counted.
#[derive(Clone, Copy)]
pub enum LineRead {
    End,
    Bad,
    Line { line: Line, read: u8 },
}

fn read_level(digit: u8) -> Option<bool>
    ensures { MatchOption result
        ((level : _) → digit ≡ level_digit level → ⊥) (λ level. digit ≡ level_digit level) }
{
    match digit {
        b'0' => Some(false),
        b'1' => Some(true),
        _ => None,
    }
}

/// The pulse that a text without a level is, if it is one.
fn read_pulse(text: &[u8]) -> Option<Line>
    requires { 2 ≤ length text.now → slice_index text.now (length text.now - 2) ≢ 0x20 }
    ensures { MatchOption result (IsNoLine text.now) (IsLine text.now) }
{
    match read_number(text) {
        Some(time) => Some(Line::Pulse { time }),
        None => None,
    }
}

/// The sample that a text with this level is, if it is one.
fn read_sample(text: &[u8], level: bool) -> Option<Line>
    requires two { 2 ≤ length text.now }
    requires space { slice_index text.now (length text.now - 2) ≡ 0x20 }
    requires digit { slice_index text.now (length text.now - 1) ≡ level_digit level }
    ensures { MatchOption result (IsNoLine text.now) (IsLine text.now) }
{
    match read_number(&text[..text.len() - 2]) {
        Some(time) => Some(Line::Sample { time, level }),
        None => None,
    }
}

/// The sample that a text with a space before its last byte is, if it is one.
fn read_spaced(text: &[u8]) -> Option<Line>
    requires two { 2 ≤ length text.now }
    requires space { slice_index text.now (length text.now - 2) ≡ 0x20 }
    ensures { MatchOption result (IsNoLine text.now) (IsLine text.now) }
{
    match read_level(text[text.len() - 1]) {
        Some(level) => read_sample(text, level),
        None => None,
    }
}

/// The line that the bytes before a newline are, if they are one.
fn read_text(text: &[u8]) -> Option<Line>
    ensures { MatchOption result (IsNoLine text.now) (IsLine text.now) }
{
    if text.len() >= 2 && text[text.len() - 2] == b' ' {
        read_spaced(text)
    } else {
        read_pulse(text)
    }
}

impl Line {
    /// In microseconds.
    pub fn time(&self) -> u32
        ensures { result ≡ time_of self.now }
    {
        match *self {
            Line::Pulse { time } | Line::Sample { time, .. } => time,
        }
    }

    /// The next line of a recording. Bytes are read one at a time, up to the newline; a failure comes in the midst of a
    /// line. What the buffer held is overwritten.
    pub fn read<S: Source>(source: &mut S, buffer: &mut [u8; 128]) -> Result<LineRead, SourceFailed>
        ensures read { ReadsLine S.means source.old source.new result }
        ensures kept { S.means.keeps source.old source.new }
        ensures cause { HasCause (S.means.faults source.old) (S.means.faults source.new) result }
    {
        match take_line(source, buffer) {
            Ok(Taken::End) => Ok(LineRead::End),
            Ok(Taken::Open { .. }) => Ok(LineRead::Bad),
            Ok(Taken::Line { len }) => match read_text(&buffer[..usize::from(len)]) {
                Some(line) => Ok(LineRead::Line {
                    line,
                    read: len + 1,
                }),
                None => Ok(LineRead::Bad),
            },
            Err(fault) => Err(fault),
        }
    }
}
