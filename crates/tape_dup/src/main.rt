//! The program: the volumes of a cartridge copied onto another one, both in image files.
#![tactic(auto)]

ghost use Rattle.std.specs.Prelude.{◌≡◌, ◌≢◌, true};
ghost use Rattle.volume_copy.specs.Lines.{status_code};

use file_hints::refusal_line;
use image_units::{Arguments, Closed, ImageUnit, NO_IMAGE, close_unit, open_unit, read_arguments};
use message_text::{Asks, what_is_asked};
use qic_base::{StoreFault, write_text};
use status_hints::copy_line;
use std::io::ErrorKind;
use std::process::ExitCode;
use tape_files::{IfMissing, NoImage, NullStreams, StderrSink, StdoutSink};
use volume_copy::{CopyStatus, exit_status, run_copy, write_status};

/// The program has two images.
const IMAGES: usize = 2;

fn main(rt: HostRuntime) -> ExitCode {
    // Held to the end, so that no file that is opened becomes a standard stream.
    let _streams = NullStreams::take(&rt);
    ExitCode::from(match read_arguments(&rt, IMAGES) {
        Ok(arguments) => answer(&rt, &arguments),
        Err(error) => finish(&rt, unread(error.kind())),
    })
}

/// Does what the words ask for, and answers the exit status. They are read before a file is opened or made.
fn answer(rt: &HostRuntime, arguments: &Arguments) -> u8 {
    match arguments.images.as_slice() {
        [from, to] if arguments.command.is_empty() => run_over_paths(rt, from, to),
        images if arguments.command.is_empty() => match what_is_asked(images) {
            Some(Asks::Help) => print_page(rt, HELP),
            Some(Asks::Version) => print_page(rt, b"tape_dup 1.0\n"),
            None => finish(rt, CopyStatus::Usage),
        },
        _ => finish(rt, CopyStatus::Usage),
    }
}

/// Prints a page that was asked for, and answers the exit status.
fn print_page(rt: &HostRuntime, page: &[u8]) -> u8 {
    match write_text(page, &mut StdoutSink::new(rt.stdout())) {
        Ok(()) => exit_status(&CopyStatus::Done),
        Err(_) => finish(rt, CopyStatus::SinkFault),
    }
}

/// Opens the images and copies, and answers the exit status. None is made if the first one is missing.
fn run_over_paths(rt: &HostRuntime, from_path: &str, to_path: &str) -> u8 {
    let mut errors = StderrSink::new(rt.stderr());
    let from = match open_unit(rt, from_path, IfMissing::Refuse) {
        Ok(unit) => unit,
        Err(cause) => return refuse(cause, CopyStatus::FromAbsent, from_path, &mut errors),
    };
    let to = match open_unit(rt, to_path, IfMissing::Refuse) {
        Ok(unit) => unit,
        Err(cause) => {
            let _ = close_unit(from);
            return refuse(cause, CopyStatus::ToAbsent, to_path, &mut errors);
        }
    };
    let ended = run_over_images(rt, from, to);
    finish_over(ended, from_path, to_path, &mut errors)
}

/// How a copy ended, and what is known of its images.
#[derive(Clone, Copy)]
struct Ended {
    status: CopyStatus,
    from: Closed,
    to: Closed,
}

/// Copies the first image's volumes onto the second, and closes both.
fn run_over_images(rt: &HostRuntime, from: ImageUnit, mut to: ImageUnit) -> Ended {
    let mut sink = StdoutSink::new(rt.stdout());
    let words = Vec::new(rt.alloc());
    let (status, from) = run_copy(rt.alloc(), &words, from, &mut to, &mut sink);
    Ended {
        status,
        from: close_unit(from),
        to: close_unit(to),
    }
}

/// The status of a copy: its target failed, if it got shorter under the run, or that can't be told.
fn status_over(status: CopyStatus, to: Closed) -> CopyStatus
    ensures cut { to.is_cut ≡ true → result ≡ CopyStatus.To StoreFault.Tape }
    ensures whole { to.is_cut ≢ true → result ≡ status }
{
    if to.is_cut {
        CopyStatus::To {
            fault: StoreFault::Tape,
        }
    } else {
        status
    }
}

/// Prints the status of a copy, and which image it is about, and answers its exit status.
fn finish_over(ended: Ended, from: &str, to: &str, errors: &mut StderrSink) -> u8
    ensures cut { ended.to.is_cut ≡ true → result ≡ status_code (CopyStatus.To StoreFault.Tape) }
    ensures whole { ended.to.is_cut ≢ true → result ≡ status_code ended.status }
{
    let status = status_over(ended.status, ended.to);
    if write_status(&status, errors).is_ok() {
        let line = copy_line(status, from, to, ended.from.failure, ended.to.failure);
        // The exit status tells it, too, where standard error can't.
        let _printed = write_text(line.bytes(), errors);
    }
    exit_status(&status)
}

/// Prints a status that is about no image, and answers its exit status.
fn finish(rt: &HostRuntime, status: CopyStatus) -> u8
    ensures { result ≡ status_code status }
{
    let line = copy_line(status, "", "", None, None);
    // The exit status tells it, too, where standard error can't.
    let _printed = write_text(line.bytes(), &mut StderrSink::new(rt.stderr()));
    exit_status(&status)
}

/// The status where the words can't be had: there is no memory for them, or one is no UTF-8 text.
fn unread(kind: ErrorKind) -> CopyStatus
    ensures memory { kind ≡ ErrorKind.OutOfMemory → result ≡ CopyStatus.NoMemory }
    ensures usage { kind ≢ ErrorKind.OutOfMemory → result ≡ CopyStatus.Usage }
{
    match kind {
        ErrorKind::OutOfMemory => CopyStatus::NoMemory,
        _ => CopyStatus::Usage,
    }
}

/// Prints which image can't be opened, and why, and answers the exit status: `absent` is that of an image that is missing. Nothing is
/// printed into the image.
fn refuse(cause: NoImage, absent: CopyStatus, image: &str, errors: &mut StderrSink) -> u8
    ensures memory { cause ≡ NoImage.NoMemory → result ≡ status_code CopyStatus.NoMemory }
    ensures missing { cause ≡ NoImage.Missing → result ≡ status_code absent }
    ensures refused { cause ≢ NoImage.NoMemory → cause ≢ NoImage.Missing → result ≡ NO_IMAGE }
{
    let code = match cause {
        NoImage::NoMemory => exit_status(&CopyStatus::NoMemory),
        NoImage::Missing => {
            let _printed = write_status(&absent, errors);
            exit_status(&absent)
        }
        NoImage::IsErrorStream => return NO_IMAGE,
        _ => NO_IMAGE,
    };
    // The exit status tells it, too, where standard error can't.
    let _printed = write_text(refusal_line("tape_dup", cause, image).bytes(), errors);
    code
}

const HELP: &[u8] = b"usage: tape_dup FROM TO

Copies the volumes of the image FROM that TO does not have, after those that it
has. TO is an image that is formatted: 'tape TO new N', then 'tape TO format
LABEL'. Exit status 0: done; 30, 31: FROM or TO is missing, or holds no
cartridge; 32, 33: FROM or TO failed; 34: TO holds another volume; the others
in 'man tape_dup'.
";
