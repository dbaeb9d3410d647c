//! Words that a command refuses, and pages that are asked for, printed for the person who gave them.

ghost use Rattle.std.specs.Prelude.{◌≡◌, ◌≢◌, ◌⊎◌, ◌++◌, chars, codes};
ghost use Rattle.clap.specs.Values.{kind_of};
ghost use Rattle.message_text.specs.Printable.{printed_in};
ghost use Rattle.qic_base.specs.SinkCalls.{Writes};
ghost use Rattle.program_words.specs.Refusals.{IsPage, WritesShown};

use crate::gap::is_memory;
use clap::Error;
use clap::error::ErrorKind;
use message_text::{Asks, HintLine, push_lines, what_is_asked};
use qic_base::{Sink, SinkFailed, write_text};
use std::alloc::Global;

/// What there was to print about words that gave no matches.
#[derive(Clone, Copy)]
pub enum Told {
    /// Nothing: there was no memory to read them.
    NoMemory,
    /// Why they are refused, on standard error.
    Mistake,
    /// The page that they ask for, on standard output.
    Page,
    /// The page could not be printed.
    Unwritten,
}

/// About the most bytes of a text that are printed.
const TEXT_ROOM: usize = 480;

/// Whether a word ends a line.
fn has_line_end(word: &String) -> bool {
    word.as_bytes().iter().any(|byte| *byte == b'\n')
}

/// Writes a text as a line, printable; the ends of its lines stay, if they are to stay.
fn write_shown<E: Sink>(text: &str, stays: bool, errors: &mut E) -> Result<(), SinkFailed>
    ensures written { Writes E.means errors.old errors.new
        (printed_in stays 480 (chars text.now) ++ codes "\n") result }
    ensures shown { WritesShown E.means errors.old errors.new result }
{
    let mut line = HintLine::new();
    push_lines(&mut line, text, TEXT_ROOM, stays);
    line.push(b"\n");
    write_text(line.bytes(), errors)
}

/// Prints why words are refused, printable: its lines stay as they are, unless one of the words has the end of a line.
fn write_mistake<E: Sink>(
    alloc: Global,
    words: &[String],
    error: &Error,
    errors: &mut E,
) -> Result<(), SinkFailed>
    ensures { WritesShown E.means errors.old errors.new result }
{
    let stays = !words.iter().any(has_line_end);
    let text = match format!(in alloc; "{error}") {
        Ok(text) => text,
        Err(_) => String::new(alloc),
    };
    write_shown(text.as_str().trim_end(), stays, errors)
}

/// The answer to a page that was printed, or not.
fn answer_page(printed: Result<(), SinkFailed>) -> Told
    ensures { IsPage result }
{
    match printed {
        Ok(()) => Told::Page,
        Err(SinkFailed) => Told::Unwritten,
    }
}

/// Prints why words are refused, or the page that they ask for: help, or the version as the only word after the program's name. A
/// mistake that can't be printed changes no answer.
pub fn tell_refusal<O: Sink, E: Sink>(
    alloc: Global,
    version: &str,
    words: &[String],
    error: &Error,
    output: &mut O,
    errors: &mut E,
) -> Told
    ensures memory { kind_of error.now ≡ ErrorKind.OutOfMemory → result ≡ Told.NoMemory }
    ensures page { (kind_of error.now ≡ ErrorKind.DisplayHelp) ⊎ (kind_of error.now ≡ ErrorKind.DisplayVersion) →
        IsPage result ⊎ (result ≡ Told.NoMemory) }
    ensures mistake { kind_of error.now ≢ ErrorKind.OutOfMemory → kind_of error.now ≢ ErrorKind.DisplayHelp →
        kind_of error.now ≢ ErrorKind.DisplayVersion → (result ≡ Told.Mistake) ⊎ IsPage result }
{
    if is_memory(error.kind()) {
        return Told::NoMemory;
    }
    if !error.use_stderr() {
        return match format!(in alloc; "{error}") {
            Ok(page) => answer_page(write_text(page.as_bytes(), output)),
            Err(_) => Told::NoMemory,
        };
    }
    if asks_version(words) {
        return answer_page(write_text(version.as_bytes(), output));
    }
    let _printed = write_mistake(alloc, words, error, errors);
    Told::Mistake
}

/// Whether the version is the only word after the program's name.
fn asks_version(words: &[String]) -> bool {
    match words {
        [_, words @ ..] => matches!(what_is_asked(words), Some(Asks::Version)),
        [] => false,
    }
}
