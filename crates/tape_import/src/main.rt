//! The program: an image file made of a flat dump, from standard input, and of its map.
#![tactic(auto)]

ghost use Rattle.std.specs.Prelude.{◌≡◌, ◌≢◌, IfSome};
ghost use Rattle.qic_base.specs.Cartridge.{IsLength};
ghost use Rattle.tape_import.specs.Texts.{status_code};

mod run;
mod status;

use clap::Error;
use file_hints::{HintLine, failure_line, refusal_line};
use file_streams::FileSource;
use program_words::{ImportWords, Told, read_command_line, read_import_words, tell_refusal};
use qic_base::write_text;
use run::{run_import, unread};
use status::{ImportStatus, write_status};
use std::process::ExitCode;
use tape_files::{
    Failure, FileDisk, IfMissing, NoImage, NullStreams, StderrSink, StdinSource, StdoutSink,
    open_image, open_to_read,
};

fn main(rt: HostRuntime) -> ExitCode {
    // Held to the end, so that no file that is opened becomes a standard stream.
    let _streams = NullStreams::take(&rt);
    ExitCode::from(match read_command_line(&rt) {
        Ok(words) => run_over_words(&rt, &words),
        Err(error) => finish(&rt, unread(error.kind())),
    })
}

/// Does what the words ask for, and answers the exit status.
fn run_over_words(rt: &HostRuntime, words: &Vec<String>) -> u8 {
    match read_import_words(rt.alloc(), words) {
        Ok(asked) => run_over_files(rt, asked),
        Err(error) => match print_refusal(rt, words, &error) {
            Told::NoMemory => finish(rt, ImportStatus::NoMemory),
            Told::Mistake => ImportStatus::Usage.code(),
            Told::Page => ImportStatus::Done.code(),
            Told::Unwritten => finish(rt, ImportStatus::SinkFault),
        },
    }
}

/// Prints why words are refused, or the page that they ask for.
fn print_refusal(rt: &HostRuntime, words: &Vec<String>, error: &Error) -> Told {
    tell_refusal(
        rt.alloc(),
        "tape_import 1.0\n",
        words.as_slice(),
        error,
        &mut StdoutSink::new(rt.stdout()),
        &mut StderrSink::new(rt.stderr()),
    )
}

/// Prints that a file can't be opened, and why, and answers the exit status. Nothing is printed into the file.
fn refuse_file(rt: &HostRuntime, status: ImportStatus, cause: NoImage, path: &str) -> u8
    ensures memory { cause ≡ NoImage.NoMemory → result ≡ status_code ImportStatus.NoMemory }
    ensures refused { cause ≢ NoImage.NoMemory → result ≡ status_code status }
{
    match cause {
        NoImage::NoMemory => finish(rt, ImportStatus::NoMemory),
        NoImage::IsErrorStream => status.code(),
        _ => finish_with(rt, status, &refusal_line("tape_import", cause, path)),
    }
}

/// Opens the files and imports the dump, and answers the exit status.
fn run_over_files(rt: &HostRuntime, asked: ImportWords) -> u8
    requires { IfSome asked.segments_per_track IsLength }
{
    let image = match open_image(rt, asked.image, IfMissing::Create) {
        Ok(image) => image,
        Err(cause) => return refuse_file(rt, ImportStatus::NoImage, cause, asked.image),
    };
    let map = match asked.map {
        Some(path) => match open_to_read(rt, path) {
            Ok(map) => Some(map),
            Err(cause) => return refuse_file(rt, ImportStatus::NoMap, cause, path),
        },
        None => None,
    };
    run_over_disks(rt, asked.segments_per_track, asked.image, image, map)
}

/// Imports the dump on standard input into an image, and answers the exit status.
fn run_over_disks(
    rt: &HostRuntime,
    segments_per_track: Option<u16>,
    path: &str,
    mut image: FileDisk,
    map: Option<FileDisk>,
) -> u8
    requires { IfSome segments_per_track IsLength }
{
    let mut chart = match map {
        Some(disk) => Some(FileSource::new(disk)),
        None => None,
    };
    let mut dump = StdinSource::new(rt.stdin());
    let mut told = StdoutSink::new(rt.stdout());
    let status = run_import(
        segments_per_track,
        &mut chart,
        &mut dump,
        &mut image,
        &mut told,
    );
    finish_over(rt, status, path, image.failure())
}

/// Prints a status, and answers its exit status. Where the image failed it is told why a call of it did.
fn finish_over(rt: &HostRuntime, status: ImportStatus, path: &str, failure: Option<Failure>) -> u8
    ensures { result ≡ status_code status }
{
    match (status, failure) {
        (ImportStatus::DiskFault, Some(failure)) => {
            finish_with(rt, status, &failure_line("tape_import", path, failure))
        }
        _ => finish(rt, status),
    }
}

/// Prints a status, and a line behind it, and answers its exit status.
fn finish_with(rt: &HostRuntime, status: ImportStatus, hint: &HintLine) -> u8
    ensures { result ≡ status_code status }
{
    let mut errors = StderrSink::new(rt.stderr());
    if write_status(status, &mut errors).is_ok() {
        // The exit status tells it, too, where standard error can't.
        let _printed = write_text(hint.bytes(), &mut errors);
    }
    status.code()
}

/// Prints a status, and answers its exit status.
fn finish(rt: &HostRuntime, status: ImportStatus) -> u8
    ensures { result ≡ status_code status }
{
    // The exit status tells it, too, where standard error can't.
    let _printed = write_status(status, &mut StderrSink::new(rt.stderr()));
    status.code()
}
