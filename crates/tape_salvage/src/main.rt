//! The program: what a dump of a real tape still holds, told or given, and how sure it is.
#![tactic(auto)]

ghost use Rattle.std.specs.Prelude.{◌≡◌, ◌≢◌};
ghost use Rattle.dump_spec.specs.Lines.{exit_status as status_code};
ghost use Rattle.dump_spec.specs.declared.status.Status.TheVariants as ends;

mod ended;
mod files;
mod run;

use clap::Error;
use dump_answers::{Ending, SalvageRoom};
use dump_opening::DumpFiles;
use dump_spec::Status;
use dump_volumes::exit_status;
use ended::{make_ending, unread, write_ending};
use file_hints::{HintLine, failure_line, refusal_line};
use file_streams::FileSource;
use files::{OpenFiles, Unopened, open_files, refusal};
use program_words::{Told, read_command_line, tell_refusal};
use qic_base::write_text;
use run::salvage_files;
use salvage_words::{Refusal, SalvageWords, read_salvage_words};
use std::process::ExitCode;
use tape_files::{Failure, FileDisk, NoImage, NullStreams, StderrSink, StdoutSink};

fn main(rt: HostRuntime) -> ExitCode {
    // Held to the end, so that no file that is opened becomes a standard stream.
    let _streams = NullStreams::take(&rt);
    ExitCode::from(match read_command_line(&rt) {
        Ok(words) => run_over_words(&rt, &words),
        Err(error) => finish(&rt, make_ending(unread(error.kind()))),
    })
}

/// Does what the words ask for, and answers the exit status.
fn run_over_words(rt: &HostRuntime, words: &Vec<String>) -> u8 {
    match read_salvage_words(rt.alloc(), words) {
        Ok(asked) => run_over_files(rt, asked),
        Err(Refusal::Words(error)) => match print_refusal(rt, words, &error) {
            Told::NoMemory => finish(rt, make_ending(Status::NoMemory)),
            Told::Mistake => exit_status(&Status::Usage),
            Told::Page => exit_status(&Status::Done),
            Told::Unwritten => finish(rt, make_ending(Status::OutputFailed)),
        },
        Err(Refusal::NoCommand) => finish(rt, make_ending(Status::Usage)),
    }
}

/// Prints why words are refused, or the page that they ask for.
fn print_refusal(rt: &HostRuntime, words: &Vec<String>, error: &Error) -> Told {
    tell_refusal(
        rt.alloc(),
        "tape_salvage 1.0\n",
        words.as_slice(),
        error,
        &mut StdoutSink::new(rt.stdout()),
        &mut StderrSink::new(rt.stderr()),
    )
}

/// Prints that a file can't be opened, and why, and answers the exit status. Nothing is printed into the file.
fn refuse_file(rt: &HostRuntime, refused: Unopened) -> u8
    ensures memory { refused.entry.cause ≡ NoImage.NoMemory → result ≡ status_code ends.NoMemory }
    ensures file { refused.entry.cause ≢ NoImage.NoMemory → result ≡ status_code (ends.CannotOpen refused.entry.file) }
{
    let status = refusal(refused.file, refused.cause);
    match refused.cause {
        NoImage::NoMemory => finish(rt, make_ending(status)),
        NoImage::IsErrorStream => exit_status(&status),
        cause => {
            let hint = refusal_line("tape_salvage", cause, refused.path);
            finish_with(rt, make_ending(status), Some(&hint))
        }
    }
}

/// A file of which a call failed, and why it did.
#[derive(Clone, Copy)]
struct FileFailure<'a> {
    path: &'a str,
    failure: Failure,
}

/// Which of the dump and the header failed, and why, where one did.
fn failure_in<'a>(
    files: &DumpFiles<FileDisk, FileSource<FileDisk>>,
    asked: SalvageWords<'a>,
) -> Option<FileFailure<'a>> {
    let (path, failure) = match (files.dump.failure(), &files.header) {
        (None, Some(header)) => (asked.header.unwrap_or(asked.dump), header.failure()),
        (failure, _) => (asked.dump, failure),
    };
    match failure {
        Some(failure) => Some(FileFailure { path, failure }),
        None => None,
    }
}

/// Takes the memory, opens the files, and answers what is asked of the dump.
fn run_over_files(rt: &HostRuntime, asked: SalvageWords) -> u8 {
    let Ok(room) = SalvageRoom::new(rt.alloc()) else {
        return finish(rt, make_ending(Status::NoMemory));
    };
    match open_files(rt, asked) {
        Ok(OpenFiles { mut read, mut sure }) => {
            let mut output = StdoutSink::new(rt.stdout());
            let ending = salvage_files(room, &mut read, &asked.asked, &mut output, &mut sure);
            finish_over(rt, ending, failure_in(&read, asked))
        }
        Err(refused) => refuse_file(rt, refused),
    }
}

/// Prints the lines of an ending, and answers the exit status. Where a read of a file failed it is told why.
fn finish_over(rt: &HostRuntime, ending: Ending, failed: Option<FileFailure<'_>>) -> u8
    ensures { result ≡ status_code ending.status }
{
    match (ending.status, failed) {
        (Status::InputFailed, Some(failed)) => {
            let hint = failure_line("tape_salvage", failed.path, failed.failure);
            finish_with(rt, ending, Some(&hint))
        }
        _ => finish(rt, ending),
    }
}

/// Prints the lines of an ending, and answers the exit status.
fn finish(rt: &HostRuntime, ending: Ending) -> u8
    ensures { result ≡ status_code ending.status }
{
    finish_with(rt, ending, None)
}

/// Prints the lines of an ending, and one behind them, and answers the exit status.
fn finish_with(rt: &HostRuntime, ending: Ending, hint: Option<&HintLine>) -> u8
    ensures { result ≡ status_code ending.status }
{
    let mut errors = StderrSink::new(rt.stderr());
    if write_ending(&ending, &mut errors).is_ok() {
        if let Some(hint) = hint {
            // The exit status tells it, too, where standard error can't.
            let _printed = write_text(hint.bytes(), &mut errors);
        }
    }
    exit_status(&ending.status)
}
