//! Which of some words is wrong.

ghost use Rattle.std.specs.Prelude.{◌≡◌, ◌+◌, ◌≤◌, [], ◌∷◌, ◌++◌, ◌↔◌, IsTrue, length, map, string_bytes, MatchOption};
ghost use Rattle.qic_base.specs.SinkCalls.{Writes};
ghost use Rattle.word_hints.specs.Forms.{IsCommand, place_of, row_of};
ghost use Rattle.word_hints.specs.Hints.{AllFit, FirstFault, IsHint, IsHintAfter, IsHintOf, IsInOrder, IsShort, IsSwapped, text_of};
ghost use Rattle.word_hints.specs.Texts.{fault_text, hint_text, word_text};

use crate::fault::WordFault;
use crate::forms::{Form, Part, form_of};
use message_text::{HintLine, push_printable};
use qic_base::{Sink, SinkFailed, write_text};

/// About the most bytes of a word that are printed.
const WORD_ROOM: usize = 100;

/// What is wrong with words that are those of no command.
#[derive(Clone, Copy)]
pub enum Hint<'a> {
    /// There is no word of a command.
    NoWord,
    /// There is one word, a command's, in the place of the image.
    NoImage { command: &'a str },
    /// The word in the place of the image is a command's, and the one after it is none.
    Swapped { command: &'a str, image: &'a str },
    /// The first word is no command's.
    NoCommand { word: &'a str },
    /// The command has other words than these.
    Form { form: &'static str },
    /// This word of the command can't be one.
    Word { word: &'a str, fault: WordFault },
}

/// Whether a word is a command's first one.
fn is_command(word: &str) -> bool
    ensures { IsTrue result ↔ IsCommand word.now }
{
    form_of(word.as_bytes()).is_some()
}

/// What is wrong with the words: the one in the place of the image, if there is one, and those of a command.
pub fn hint_of<'a>(image: Option<&'a str>, words: &'a [String]) -> Hint<'a>
    ensures hint { IsHint (text_of image.entry) (map string_bytes words.now) result }
    ensures short { IsShort result }
{
    match words {
        [] => hint_without(image),
        [first, behind @ ..] => hint_with(image, first, behind),
    }
}

/// What is wrong if there is no word of a command.
fn hint_without<'a>(image: Option<&'a str>) -> Hint<'a>
    ensures hint { IsHint (text_of image.entry) [] result }
    ensures short { IsShort result }
{
    match image {
        Some(image) if is_command(image) => Hint::NoImage { command: image },
        _ => Hint::NoWord,
    }
}

/// The word in the place of the image, if it is a command's and the one after it is none.
fn misplaced<'a>(image: Option<&'a str>, first: &String) -> Option<&'a str>
    ensures { MatchOption result (IsInOrder (text_of image.entry) (string_bytes first.now))
        (λ command. IsSwapped (text_of image.entry) command.now (string_bytes first.now)) }
{
    let Some(image) = image else {
        return None;
    };
    if is_command(first.as_str()) {
        return None;
    }
    if is_command(image) { Some(image) } else { None }
}

/// What is wrong if there is one.
fn hint_with<'a>(image: Option<&'a str>, first: &'a String, behind: &'a [String]) -> Hint<'a>
    ensures hint { IsHint (text_of image.entry)
        (string_bytes first.now ∷ map string_bytes behind.now) result }
    ensures short { IsShort result }
{
    match misplaced(image, first) {
        Some(command) => Hint::Swapped {
            command,
            image: first.as_str(),
        },
        None => hint_of_first(first, behind),
    }
}

/// What is wrong with a first word, or with those behind it.
fn hint_of_first<'a>(first: &'a String, behind: &'a [String]) -> Hint<'a>
    ensures hint { IsHintOf (string_bytes first.now) (map string_bytes behind.now) result }
    ensures short { IsShort result }
{
    match form_of(first.as_bytes()) {
        Some(form) => hint_of_form(&form, behind),
        None => Hint::NoCommand {
            word: first.as_str(),
        },
    }
}

/// What is wrong with the words behind a command's first one.
fn hint_of_form<'a>(form: &Form, behind: &'a [String]) -> Hint<'a>
    ensures { IsHintAfter (row_of form.now) (map string_bytes behind.now) result }
{
    if form.2 <= behind.len() && behind.len() <= form.3.len() {
        if let Some((word, fault)) = first_fault(form.3, behind) {
            return Hint::Word { word, fault };
        }
    }
    Hint::Form { form: form.1 }
}

/// The first of the words that may not stand at its place, and why it may not.
fn first_fault<'a>(parts: &[Part], words: &'a [String]) -> Option<(&'a str, WordFault)>
    ensures { MatchOption result (AllFit (map place_of parts.now) (map string_bytes words.now))
        (λ found. FirstFault (map place_of parts.now) (map string_bytes words.now) found.0.now found.1) }
{
    let [part, parts @ ..] = parts else {
        return None;
    };
    let [word, words @ ..] = words else {
        return None;
    };
    match part.fault(word.as_bytes()) {
        Some(fault) => Some((word.as_str(), fault)),
        None => first_fault(parts, words),
    }
}

/// Writes the line of a hint.
pub fn write_hint<K: Sink>(hint: Hint<'_>, sink: &mut K) -> Result<(), SinkFailed>
    requires { IsShort hint }
    ensures { Writes K.means sink.old sink.new (hint_text hint.entry) result }
{
    write_text(hint_line(hint).bytes(), sink)
}

/// The line of a hint.
fn hint_line(hint: Hint<'_>) -> HintLine
    requires { IsShort hint }
    ensures { result ≡ hint_text hint.entry }
{
    let mut line = HintLine::new();
    line.push(b"tape: ");
    match hint {
        Hint::NoWord => line.push(b"the command is missing; try 'tape --help'"),
        Hint::NoImage { command } => {
            line.push(b"the image is missing; it comes first: tape IMAGE ");
            push_printable(&mut line, command, WORD_ROOM);
        }
        Hint::Swapped { command, image } => {
            line.push(b"the image comes first: tape ");
            push_printable(&mut line, image, WORD_ROOM);
            line.push(b" ");
            push_printable(&mut line, command, WORD_ROOM);
        }
        Hint::NoCommand { word } => {
            line.push(b"there is no command ");
            push_word(&mut line, word);
            line.push(b"; try 'tape --help'");
        }
        Hint::Form { form } => {
            line.push(b"wrong number of arguments; use: tape IMAGE ");
            line.push(form.as_bytes());
        }
        Hint::Word { word, fault } => {
            push_word(&mut line, word);
            line.push(b": ");
            push_fault(&mut line, fault);
        }
    }
    line.push(b"\n");
    line
}

/// Puts a word behind a line, in quotes.
fn push_word(line: &mut HintLine, word: &str)
    requires { length line.old ≤ 80 }
    ensures word { line.new ≡ line.old ++ word_text word.now }
    ensures short { length line.new ≤ length line.old + 105 }
{
    line.push(b"'");
    push_printable(line, word, WORD_ROOM);
    line.push(b"'");
}

/// Puts what is wrong with a word behind a line.
fn push_fault(line: &mut HintLine, fault: WordFault)
    requires { length line.old ≤ 240 }
    ensures fault { line.new ≡ line.old ++ fault_text fault }
    ensures short { length line.new ≤ length line.old + 80 }
{
    match fault {
        WordFault::NoNumber => line.push(b"a number must be decimal digits"),
        WordFault::LeadingZero => line.push(b"a number must not begin with 0"),
        WordFault::TooManyDigits => line.push(b"a number must have at most nine digits"),
        WordFault::OutOfRange { least, greatest } => {
            line.push(b"expected a number from ");
            line.push_number(u64::from(least));
            line.push(b" to ");
            line.push_number(u64::from(greatest));
        }
        WordFault::NameLength => line.push(b"a name or label must have 1 to 44 bytes"),
        WordFault::NameByte => line.push(
            b"a name must be printable ASCII without a space at its ends",
        ),
        WordFault::NoDate => line.push(b"expected a date like 1996-02-29T12:00:00"),
        WordFault::OtherWord => line.push(b"not one of the words that may stand there"),
    }
}
