//! The lines of a script.

ghost use Rattle.std.specs.Prelude.{◌≡◌, ◌+◌, ◌<◌, ◌≤◌, [], ◌∷◌, take, drop, length, codes, MatchOption, if◌then◌else◌, nat_lt};
ghost use Rattle.command_laws.specs.Inputs.{HasLineForm, words_of};
ghost use Rattle.qic_base.specs.Cause.{HasCause};
ghost use Rattle.tape_script.specs.Input.{IsNoLine};
ghost use Rattle.tape_script.specs.Reading.{ReadsLine};

use crate::date::read_date;
use crate::number::read_number;
use crate::taking::{Taken, take_line};
use crate::word::is_word;
use command_spec::Line;
use qic_base::{Name, Source, SourceFailed};

/// What was read in a line's place, with the number of bytes that it took: the end of the source before any byte;
/// bytes that are no line; or a line, its newline counted.
#[derive(Clone, Copy)]
pub enum LineRead {
    End,
    Bad { read: u8 },
    Line { line: Line, read: u8 },
}

/// Where the first word ends: at the first space, or at the end of the text.
fn word_end(text: &[u8]) -> usize
    ensures within { result ≤ length text.now }
    ensures words { words_of text.now ≡ take result text.now ∷ (if nat_lt result (length text.now)
        then words_of (drop (result + 1) text.now) else []) }
{
    for (at, byte) in text.iter().enumerate() {
        if *byte == b' ' {
            return at;
        }
    }
    text.len()
}

fn read_one(first: &[u8]) -> Option<Line>
    ensures { MatchOption result
        (IsNoLine (first.now ∷ [])) (HasLineForm (first.now ∷ [])) }
{
    if is_word(first, "list") {
        Some(Line::List)
    } else if is_word(first, "scrub") {
        Some(Line::Scrub)
    } else if is_word(first, "end") {
        Some(Line::End)
    } else {
        None
    }
}

fn read_two(first: &[u8], second: &[u8]) -> Option<Line>
    ensures { MatchOption result
        (IsNoLine (first.now ∷ second.now ∷ []))
        (HasLineForm (first.now ∷ second.now ∷ [])) }
{
    if !is_word(first, "restore") {
        return None;
    }
    match read_number(second) {
        Some(number) => Some(Line::Restore { number }),
        None => None,
    }
}

fn read_append(name: &[u8], length: &[u8]) -> Option<Line>
    ensures { MatchOption result
        (IsNoLine (codes "append" ∷ name.now ∷ length.now ∷ []))
        (HasLineForm (codes "append" ∷ name.now ∷ length.now ∷ [])) }
{
    match (Name::from_text(name), read_number(length)) {
        (Some(name), Some(length)) => Some(Line::Append {
            name,
            length,
            date: 0,
        }),
        _ => None,
    }
}

fn read_lose(segment: &[u8], sector: &[u8]) -> Option<Line>
    ensures { MatchOption result
        (IsNoLine (codes "lose" ∷ segment.now ∷ sector.now ∷ []))
        (HasLineForm (codes "lose" ∷ segment.now ∷ sector.now ∷ [])) }
{
    match (read_number(segment), read_number(sector)) {
        (Some(segment), Some(sector)) => Some(Line::Lose { segment, sector }),
        _ => None,
    }
}

fn read_three(first: &[u8], second: &[u8], third: &[u8]) -> Option<Line>
    ensures { MatchOption result
        (IsNoLine (first.now ∷ second.now ∷ third.now ∷ []))
        (HasLineForm (first.now ∷ second.now ∷ third.now ∷ [])) }
{
    if is_word(first, "append") {
        read_append(second, third)
    } else if is_word(first, "lose") {
        read_lose(second, third)
    } else {
        None
    }
}

fn read_four(first: &[u8], second: &[u8], third: &[u8], fourth: &[u8]) -> Option<Line>
    ensures { MatchOption result
        (IsNoLine (first.now ∷ second.now ∷ third.now ∷ fourth.now ∷ []))
        (HasLineForm (first.now ∷ second.now ∷ third.now ∷ fourth.now ∷ [])) }
{
    if !is_word(first, "append") {
        return None;
    }
    let name = Name::from_text(second)?;
    let length = read_number(third)?;
    let date = read_date(fourth)?;
    Some(Line::Append { name, length, date })
}

/// The line of these three words and of those in the text.
fn read_fourth(first: &[u8], second: &[u8], third: &[u8], text: &[u8]) -> Option<Line>
    ensures { MatchOption result
        (IsNoLine (first.now ∷ second.now ∷ third.now ∷ words_of text.now))
        (HasLineForm (first.now ∷ second.now ∷ third.now ∷ words_of text.now)) }
{
    let end = word_end(text);
    if end == text.len() {
        read_four(first, second, third, text)
    } else {
        None
    }
}

/// The line of these two words and of those in the text.
fn read_third(first: &[u8], second: &[u8], text: &[u8]) -> Option<Line>
    ensures { MatchOption result
        (IsNoLine (first.now ∷ second.now ∷ words_of text.now))
        (HasLineForm (first.now ∷ second.now ∷ words_of text.now)) }
{
    let end = word_end(text);
    if end == text.len() {
        read_three(first, second, text)
    } else {
        read_fourth(first, second, &text[..end], &text[end + 1..])
    }
}

/// The line of this word and of those in the text.
fn read_second(first: &[u8], text: &[u8]) -> Option<Line>
    ensures { MatchOption result
        (IsNoLine (first.now ∷ words_of text.now)) (HasLineForm (first.now ∷ words_of text.now)) }
{
    let end = word_end(text);
    if end == text.len() {
        read_two(first, text)
    } else {
        read_third(first, &text[..end], &text[end + 1..])
    }
}

/// The line that the bytes before a newline are, if they are one.
fn read_words(text: &[u8]) -> Option<Line>
    ensures { MatchOption result
        (IsNoLine (words_of text.now)) (HasLineForm (words_of text.now)) }
{
    let end = word_end(text);
    if end == text.len() {
        read_one(text)
    } else {
        read_second(&text[..end], &text[end + 1..])
    }
}

/// The next line of a script. Bytes are read one at a time, up to the newline; a failure comes in the midst of a
/// line. What the buffer held is overwritten.
pub fn read_line<S: Source>(
    source: &mut S,
    buffer: &mut [u8; 128],
) -> Result<LineRead, SourceFailed>
    ensures read { ReadsLine S.means source.old source.new result }
    ensures kept { S.means.keeps source.old source.new }
    ensures cause { HasCause (S.means.faults source.old) (S.means.faults source.new) result }
{
    match take_line(source, buffer) {
        Ok(Taken::End) => Ok(LineRead::End),
        Ok(Taken::Open { read }) => Ok(LineRead::Bad { read }),
        Ok(Taken::Line { len }) => match read_words(&buffer[..usize::from(len)]) {
            Some(line) => Ok(LineRead::Line {
                line,
                read: len + 1,
            }),
            None => Ok(LineRead::Bad { read: len + 1 }),
        },
        Err(fault) => Err(fault),
    }
}
