//! The line of a copy.

ghost use Rattle.std.specs.Prelude.{◌≡◌, ◌≤◌, length};
ghost use Rattle.status_hints.specs.Lines.{copy_text, differs_text, refused};

use crate::status::status_line;
use command_spec::{CopyStatus, Status};
use file_hints::{HintLine, named_line};
use qic_base::StoreFault;
use tape_files::Failure;

/// The program that copies.
const PROGRAM: &str = "tape_dup";

/// The status of a run that is refused for the same cause.
fn refused(fault: StoreFault) -> Status
    ensures { result ≡ refused fault }
{
    match fault {
        StoreFault::NotFormatted => Status::NotFormatted,
        StoreFault::Foreign { field, value } => Status::Foreign { field, value },
        StoreFault::TableMismatch => Status::TableMismatch,
        StoreFault::Full { need, have } => Status::Full { need, have },
        StoreFault::NoVolume { number, count } => Status::NoVolume { number, count },
        StoreFault::Lost { segment, lost } => Status::Lost { segment, lost },
        StoreFault::Mismatch { segment } => Status::Mismatch { segment },
        StoreFault::Protected => Status::Protected,
        StoreFault::Short { .. } | StoreFault::Source => Status::SourceFault,
        StoreFault::Sink => Status::SinkFault,
        StoreFault::Tape => Status::TapeFault,
    }
}

/// A line as it stands.
fn fixed_line(text: &'static str) -> HintLine
    requires { length text.now ≤ 100 }
    ensures { result ≡ text.now }
{
    let mut line = HintLine::new();
    line.push(text.as_bytes());
    line
}

/// Names the image with a volume that is another one.
fn differs_line(image: &str, number: u32) -> HintLine
    ensures { result ≡ differs_text image.now number }
{
    let mut line = named_line(PROGRAM, image);
    line.push(b": volume ");
    line.push_number(u64::from(number));
    line.push(b" is not a copy: the other image has another one, or none\n");
    line
}

/// The line of a copy's status: which of its images it is about, and why it came, or what to do. There is none for `Done`. The failures
/// are those of the images.
pub fn copy_line(
    status: CopyStatus,
    from: &str,
    to: &str,
    from_failure: Option<Failure>,
    to_failure: Option<Failure>,
) -> HintLine
    ensures { result ≡ copy_text from.now to.now status from_failure to_failure }
{
    match status {
        CopyStatus::Done => HintLine::new(),
        CopyStatus::Usage => fixed_line("usage: tape_dup FROM TO\n"),
        CopyStatus::NoMemory => fixed_line("tape_dup: out of memory\n"),
        CopyStatus::SinkFault => fixed_line("tape_dup: the output can't be written\n"),
        CopyStatus::FromAbsent => status_line(PROGRAM, from, Status::NoCartridge, false, None),
        CopyStatus::ToAbsent => status_line(PROGRAM, to, Status::NoCartridge, false, None),
        CopyStatus::From { fault } => {
            status_line(PROGRAM, from, refused(fault), false, from_failure)
        }
        CopyStatus::To { fault } => status_line(PROGRAM, to, refused(fault), false, to_failure),
        CopyStatus::Differs { number } => differs_line(to, number),
    }
}
