//! The line after that of a status.

ghost use Rattle.std.specs.Prelude.{◌≡◌, ◌+◌, ◌≤◌, ◌++◌, ◌↔◌, IsTrue, length};
ghost use Rattle.status_hints.specs.Lines.{IsRestore, ending, status_text, why};

use crate::advice::push_advice;
use command_spec::{Status, Words};
use file_hints::{HintLine, named_line, push_failure};
use tape_files::Failure;

/// Whether a command restores: its output may be left incomplete by a refusal.
pub fn restores(words: &Words) -> bool
    ensures { IsTrue result ↔ IsRestore words.now }
{
    matches!(words, Words::Restore { .. })
}

/// Appends why a status came: the reason of the system, if it gave one for a tape that failed, or what is advised.
pub(crate) fn push_why(
    line: &mut HintLine,
    status: Status,
    restores: bool,
    failure: Option<Failure>,
)
    requires { length line.old ≤ 340 }
    ensures text { line.new ≡ line.old ++ why status restores failure }
    ensures short { length line.new ≤ length line.old + 150 }
{
    match (status, failure) {
        (Status::TapeFault, Some(failure)) => push_failure(line, failure),
        _ => push_advice(line, status, restores),
    }
}

/// What a restore adds if the tape failed.
fn ending(status: Status, restores: bool) -> &'static [u8]
    ensures text { result.now ≡ ending status restores }
    ensures short { length result.now ≤ 26 }
{
    match status {
        Status::TapeFault if restores => b"; the output is incomplete",
        _ => b"",
    }
}

/// The line of a program, whose name has at most 20 bytes, that names the image of a status and says why it came, or what to do. It
/// is for each status but `Done` and `Usage`.
pub fn status_line(
    program: &str,
    image: &str,
    status: Status,
    restores: bool,
    failure: Option<Failure>,
) -> HintLine
    requires { length program.now ≤ 20 }
    ensures { result ≡ status_text program.now image.now status restores failure }
{
    let mut line = named_line(program, image);
    line.push(b": ");
    push_why(&mut line, status, restores, failure);
    line.push(ending(status, restores));
    line.push(b"\n");
    line
}
