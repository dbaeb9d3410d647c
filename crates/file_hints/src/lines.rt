//! The lines: why a file is not an image, and why a call failed.

ghost use Rattle.std.specs.Prelude.{◌≡◌, ◌+◌, ◌≤◌, ◌++◌, length};
ghost use Rattle.file_hints.specs.Lines.{error_words, failure_words, failure_text, failure_of as said_of, named, plain_words, said, refusal_text};

use crate::error::error_name;
use message_text::{HintLine, push_printable};
use tape_files::{Failure, NoImage};

/// About the most bytes of a path that are printed.
const PATH_ROOM: usize = 300;

/// The begin of a line of a program, whose name has at most 20 bytes: that name, and a file's.
pub fn named_line(program: &str, path: &str) -> HintLine
    requires { length program.now ≤ 20 }
    ensures names { result ≡ named program.now path.now }
    ensures short { length result ≤ 330 }
{
    let mut line = HintLine::new();
    line.push(program.as_bytes());
    line.push(b": ");
    push_printable(&mut line, path, PATH_ROOM);
    line
}

/// What is printed about a file that is not an image, after its name. If the system gave a reason, that comes after it.
fn plain_words(cause: NoImage) -> &'static [u8]
    ensures words { result.now ≡ plain_words cause }
    ensures short { length result.now ≤ 70 }
{
    match cause {
        NoImage::NotOpened(_) => b" can't be opened: ",
        NoImage::NotMade(_) => b" can't be made: ",
        NoImage::Moved => b" was replaced or removed while it was opened; try again",
        NoImage::NotRegular => b" is not a regular file",
        NoImage::IsStream => b" is also standard input or output of this command",
        NoImage::IsErrorStream => b" is also standard error of this command",
        NoImage::Locked => b" is in use by another process, or named twice in this command",
        NoImage::NotLocked(_) => b" can't be locked: ",
        NoImage::NotSynced(_) => b" or its directory can't be synced: ",
        NoImage::NoMemory => b" can't be opened: out of memory",
        NoImage::Missing => b" does not exist",
        NoImage::NotSeen(_) => b" can't be looked at: ",
        NoImage::StreamsUnseen(_) => b": the standard streams can't be looked at: ",
        NoImage::HoldsOther => b" is not a tape image; for a dump use tape_import or tape_salvage",
    }
}

/// The reason that the system gave for a file that is not an image, if it gave one.
fn failure_of(cause: NoImage) -> Option<Failure>
    ensures { result ≡ said_of cause }
{
    match cause {
        NoImage::NotOpened(failure)
        | NoImage::NotMade(failure)
        | NoImage::NotLocked(failure)
        | NoImage::NotSynced(failure)
        | NoImage::NotSeen(failure)
        | NoImage::StreamsUnseen(failure) => Some(failure),
        _ => None,
    }
}

/// Appends the name of an error of the system to a line.
fn push_error(line: &mut HintLine, number: u32)
    requires { length line.old ≤ 400 }
    ensures words { line.new ≡ line.old ++ error_words number }
    ensures short { length line.new ≤ length line.old + 40 }
{
    let name = error_name(number);
    if name.is_empty() {
        line.push(b"system error ");
        line.push_number(u64::from(number));
    } else {
        line.push(name);
    }
}

/// Appends what is known of a failure to a line.
pub fn push_failure(line: &mut HintLine, failure: Failure)
    requires { length line.old ≤ 400 }
    ensures words { line.new ≡ line.old ++ failure_words failure }
    ensures short { length line.new ≤ length line.old + 40 }
{
    match failure {
        Failure::ReadAlone => line.push(b"the file is read-only"),
        Failure::Number(number) => push_error(line, number),
        Failure::Shorter => line.push(b"the file got shorter under the run"),
        Failure::Untold => line.push(b"the system gives no reason"),
    }
}

/// Appends the reason that the system gave to a line, if it gave one.
fn push_said(line: &mut HintLine, failure: Option<Failure>)
    requires { length line.old ≤ 400 }
    ensures words { line.new ≡ line.old ++ said failure }
    ensures short { length line.new ≤ length line.old + 40 }
{
    if let Some(failure) = failure {
        push_failure(line, failure);
    }
}

/// The line of a program, whose name has at most 20 bytes, on why a call of a file failed.
pub fn failure_line(program: &str, path: &str, failure: Failure) -> HintLine
    requires { length program.now ≤ 20 }
    ensures { result ≡ failure_text program.now path.now failure }
{
    let mut line = named_line(program, path);
    line.push(b": ");
    push_failure(&mut line, failure);
    line.push(b"\n");
    line
}

/// The line of a program, whose name has at most 20 bytes, on why a file is not an image.
pub fn refusal_line(program: &str, cause: NoImage, path: &str) -> HintLine
    requires { length program.now ≤ 20 }
    ensures { result ≡ refusal_text program.now cause path.now }
{
    let mut line = named_line(program, path);
    line.push(plain_words(cause));
    push_said(&mut line, failure_of(cause));
    line.push(b"\n");
    line
}
