//! The program: the flat dump of a cartridge in an image file, on standard output, and its map.
#![tactic(auto)]

ghost use Rattle.std.specs.Prelude.{◌≡◌, ◌≢◌, ◌≤◌, IfOk};
ghost use Rattle.std.specs.Vec.{vec_capacity};
ghost use Rattle.rescue_map.specs.Laws.{most_words};
ghost use Rattle.tape_export.specs.Runs.{status_code};

mod run;
mod status;

use cart_image::ImageTape;
use clap::Error;
use file_hints::{HintLine, failure_line, refusal_line};
use file_streams::FileSink;
use program_words::{ExportWords, Told, read_command_line, read_export_words, tell_refusal};
use qic_base::{MOST_SEGMENTS, NoMemory, write_text};
use run::{export_files, unread};
use status::ExportStatus;
use std::alloc::Global;
use std::process::ExitCode;
use tape_files::{
    Failure, FileDisk, IfMissing, NoImage, NullStreams, StderrSink, StdoutSink, open_image,
};

fn main(rt: HostRuntime) -> ExitCode {
    // Held to the end, so that no file that is opened becomes a standard stream.
    let _streams = NullStreams::take(&rt);
    ExitCode::from(match read_command_line(&rt) {
        Ok(words) => run_over_words(&rt, &words),
        Err(error) => finish(&rt, unread(error.kind())),
    })
}

/// Does what the words ask for, and answers the exit status.
fn run_over_words(rt: &HostRuntime, words: &Vec<String>) -> u8 {
    match read_export_words(rt.alloc(), words) {
        Ok(asked) => run_over_files(rt, asked),
        Err(error) => match print_refusal(rt, words, &error) {
            Told::NoMemory => finish(rt, ExportStatus::NoMemory),
            Told::Mistake => ExportStatus::Usage.code(),
            Told::Page => ExportStatus::Done.code(),
            Told::Unwritten => finish(rt, ExportStatus::SinkFault),
        },
    }
}

/// An empty mask, with room for the words of the longest cartridge.
fn make_mask(alloc: Global) -> Result<Vec<u32>, NoMemory>
    ensures { IfOk result (λ mask. most_words ≤ vec_capacity mask) }
{
    Ok(Vec::with_capacity(alloc, MOST_SEGMENTS)?)
}

/// How a run ends whose image can't be opened: where there is none, there is no cartridge.
fn unopened(cause: NoImage) -> ExportStatus
    ensures missing { cause ≡ NoImage.Missing → result ≡ ExportStatus.NoCartridge }
    ensures other { cause ≢ NoImage.Missing → result ≡ ExportStatus.NoImage }
{
    match cause {
        NoImage::Missing => ExportStatus::NoCartridge,
        _ => ExportStatus::NoImage,
    }
}

/// Prints why words are refused, or the page that they ask for.
fn print_refusal(rt: &HostRuntime, words: &Vec<String>, error: &Error) -> Told {
    tell_refusal(
        rt.alloc(),
        "tape_export 1.0\n",
        words.as_slice(),
        error,
        &mut StdoutSink::new(rt.stdout()),
        &mut StderrSink::new(rt.stderr()),
    )
}

/// Prints that a file can't be opened, and why, and answers the exit status. Nothing is printed into the file.
fn refuse_file(rt: &HostRuntime, status: ExportStatus, cause: NoImage, path: &str) -> u8
    ensures memory { cause ≡ NoImage.NoMemory → result ≡ status_code ExportStatus.NoMemory }
    ensures refused { cause ≢ NoImage.NoMemory → result ≡ status_code status }
{
    match cause {
        NoImage::NoMemory => finish(rt, ExportStatus::NoMemory),
        NoImage::IsErrorStream => status.code(),
        _ => finish_with(rt, status, &refusal_line("tape_export", cause, path)),
    }
}

/// Opens the files and exports the image, and answers the exit status.
fn run_over_files(rt: &HostRuntime, asked: ExportWords) -> u8 {
    let Ok(mut mask) = make_mask(rt.alloc()) else {
        return finish(rt, ExportStatus::NoMemory);
    };
    let image = match open_image(rt, asked.image, IfMissing::Refuse) {
        Ok(image) => image,
        Err(cause) => return refuse_file(rt, unopened(cause), cause, asked.image),
    };
    let map = match asked.map {
        Some(path) => match open_image(rt, path, IfMissing::Create) {
            Ok(map) => Some(map),
            Err(cause) => return refuse_file(rt, ExportStatus::NoMap, cause, path),
        },
        None => None,
    };
    run_over_disks(rt, &mut mask, asked.image, image, map)
}

/// Exports the image, and answers the exit status.
fn run_over_disks(
    rt: &HostRuntime,
    mask: &mut Vec<u32>,
    path: &str,
    image: FileDisk,
    map: Option<FileDisk>,
) -> u8
    requires { most_words ≤ vec_capacity mask.old }
{
    let faults = image.faults();
    let mut tape = ImageTape::open(image, faults);
    let mut dump = StdoutSink::new(rt.stdout());
    let mut chart = FileSink::new(map);
    let status = export_files(mask, &mut tape, &mut dump, &mut chart);
    finish_over(rt, status, path, tape.into_disk().failure())
}

/// Prints a status, and answers its exit status. Where the image failed it is told why a call of it did.
fn finish_over(rt: &HostRuntime, status: ExportStatus, path: &str, failure: Option<Failure>) -> u8
    ensures { result ≡ status_code status }
{
    match (status, failure) {
        (ExportStatus::TapeFault, Some(failure)) => {
            finish_with(rt, status, &failure_line("tape_export", path, failure))
        }
        _ => finish(rt, status),
    }
}

/// Prints a status, and a line behind it, and answers its exit status.
fn finish_with(rt: &HostRuntime, status: ExportStatus, hint: &HintLine) -> u8
    ensures { result ≡ status_code status }
{
    let mut errors = StderrSink::new(rt.stderr());
    if write_text(status.line().as_bytes(), &mut errors).is_ok() {
        // The exit status tells it, too, where standard error can't.
        let _printed = write_text(hint.bytes(), &mut errors);
    }
    status.code()
}

/// Prints a status, and answers its exit status.
fn finish(rt: &HostRuntime, status: ExportStatus) -> u8
    ensures { result ≡ status_code status }
{
    // The exit status tells it, too, where standard error can't.
    let _printed = write_text(status.line().as_bytes(), &mut StderrSink::new(rt.stderr()));
    status.code()
}
