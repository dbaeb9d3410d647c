//! The program: a run over a cartridge in an image file, with the standard streams.
#![tactic(auto)]

ghost use Rattle.std.specs.Prelude.{◌≡◌, ◌≢◌, ◌↔◌, true};
ghost use Rattle.tape_cmd.specs.Lines.{status_code};
ghost use Rattle.word_hints.specs.Creating.{Creates};

mod refusal;

use command_spec::Words;
use image_units::{Arguments, Closed, ImageUnit, NO_IMAGE, close_unit, open_unit, read_arguments};
use qic_base::write_text;
use refusal::{write_refusal, write_why};
use status_hints::restores;
use std::io::ErrorKind;
use std::process::ExitCode;
use tape_cmd::{Status, exit_status, run, write_status};
use tape_files::{
    IfMissing, NoImage, NullStreams, StderrSink, StdinSource, StdoutSink, is_standard_error,
};
use tape_script::read_words;
use word_hints::{Asks, creates, hint_of, what_is_asked, write_help, write_hint, write_version};

/// The program has one image.
const IMAGES: usize = 1;

fn main(rt: HostRuntime) -> ExitCode {
    // Held to the end, so that no file that is opened becomes a standard stream.
    let _streams = NullStreams::take(&rt);
    ExitCode::from(match read_arguments(&rt, IMAGES) {
        Ok(arguments) => answer(&rt, &arguments),
        Err(error) => refuse_texts(error.kind(), &mut StderrSink::new(rt.stderr())),
    })
}

/// Does what the words ask for, and answers the exit status. They are read before a file is opened or made.
fn answer(rt: &HostRuntime, arguments: &Arguments) -> u8 {
    if let Some(asks) = what_is_asked(arguments.images.as_slice(), arguments.command.as_slice()) {
        return help(rt, asks);
    }
    let mut errors = StderrSink::new(rt.stderr());
    let [image] = arguments.images.as_slice() else {
        return refuse_words(None, arguments.command.as_slice(), &mut errors);
    };
    match read_words(&arguments.command) {
        Ok(words) => run_command(rt, image, &words, &arguments.command, &mut errors),
        // Nothing is printed into the image.
        Err(_) if is_standard_error(rt, image) => exit_status(&Status::Usage),
        Err(_) => refuse_words(Some(image), arguments.command.as_slice(), &mut errors),
    }
}

/// Whether a command makes an image that is missing.
fn if_missing(words: &Words) -> IfMissing
    ensures { (result ≡ IfMissing.Create) ↔ Creates words.now }
{
    if creates(words) {
        IfMissing::Create
    } else {
        IfMissing::Refuse
    }
}

/// Prints what a word for help asks for, and answers the exit status.
fn help(rt: &HostRuntime, asks: Asks) -> u8 {
    let mut sink = StdoutSink::new(rt.stdout());
    let written = match asks {
        Asks::Help => write_help(&mut sink),
        Asks::Version => write_version(&mut sink),
    };
    let status = match written {
        Ok(()) => Status::Done,
        Err(_) => Status::SinkFault,
    };
    finish(status, &mut StderrSink::new(rt.stderr()))
}

/// Carries out a command on the image at a path, and answers the exit status.
fn run_command(
    rt: &HostRuntime,
    image: &str,
    words: &Words,
    command: &Vec<String>,
    errors: &mut StderrSink,
) -> u8 {
    match open_unit(rt, image, if_missing(words)) {
        Ok(unit) => {
            let (status, closed) = run_over_image(rt, command, unit);
            finish_over(status, closed, image, restores(words), errors)
        }
        Err(cause) => refuse(cause, image, errors),
    }
}

/// Carries out the command on an image that was opened, and closes it.
fn run_over_image(
    rt: &HostRuntime,
    command: &Vec<String>,
    mut unit: ImageUnit,
) -> (Status, Closed) {
    let mut source = StdinSource::new(rt.stdin());
    let mut sink = StdoutSink::new(rt.stdout());
    let status = run(rt.alloc(), command, &mut unit, &mut source, &mut sink);
    (status, close_unit(unit))
}

/// Answers the exit status where the words can't be had: there is no memory for them, which prints nothing, or one is no
/// UTF-8 text, so no word of any command.
fn refuse_texts(kind: ErrorKind, errors: &mut StderrSink) -> u8
    ensures memory { kind ≡ ErrorKind.OutOfMemory → result ≡ status_code Status.NoMemory }
    ensures usage { kind ≢ ErrorKind.OutOfMemory → result ≡ status_code Status.Usage }
{
    match kind {
        ErrorKind::OutOfMemory => exit_status(&Status::NoMemory),
        _ => {
            let code = finish(Status::Usage, errors);
            // The exit status tells it, too, where standard error can't.
            let _printed = write_text(
                b"tape: an argument is not valid UTF-8, which a path must be too\n",
                errors,
            );
            code
        }
    }
}

/// Prints that the words are those of no command, and why, and answers the exit status.
fn refuse_words(image: Option<&str>, command: &[String], errors: &mut StderrSink) -> u8
    ensures { result ≡ status_code Status.Usage }
{
    let code = finish(Status::Usage, errors);
    // The exit status tells it, too, where standard error can't.
    let _printed = write_hint(hint_of(image, command), errors);
    code
}

/// Prints that the image can't be opened, and why, and answers the exit status. Nothing is printed into the image.
fn refuse(cause: NoImage, image: &str, errors: &mut StderrSink) -> u8
    ensures memory { cause ≡ NoImage.NoMemory → result ≡ status_code Status.NoMemory }
    ensures missing { cause ≡ NoImage.Missing → result ≡ status_code Status.NoCartridge }
    ensures refused { cause ≢ NoImage.NoMemory → cause ≢ NoImage.Missing → result ≡ NO_IMAGE }
{
    match cause {
        NoImage::NoMemory => return finish(Status::NoMemory, errors),
        NoImage::Missing => {
            let code = finish(Status::NoCartridge, errors);
            let _printed = write_refusal(cause, image, errors);
            return code;
        }
        NoImage::IsErrorStream => {}
        _ => {
            // The exit status tells it, too, where standard error can't.
            if write_text(b"tape: cannot open the image\n", errors).is_ok() {
                let _printed = write_refusal(cause, image, errors);
            }
        }
    }
    NO_IMAGE
}

/// The status of a run over an image: it failed, if the image got shorter under it, or that can't be told.
fn status_over(status: Status, closed: Closed) -> Status
    ensures cut { closed.is_cut ≡ true → result ≡ Status.TapeFault }
    ensures whole { closed.is_cut ≢ true → result ≡ status }
{
    if closed.is_cut {
        Status::TapeFault
    } else {
        status
    }
}

/// Prints the status of a run over an image, and why it came or what to do, and answers its exit status.
fn finish_over(
    status: Status,
    closed: Closed,
    image: &str,
    restores: bool,
    errors: &mut StderrSink,
) -> u8
    ensures cut { closed.is_cut ≡ true → result ≡ status_code Status.TapeFault }
    ensures whole { closed.is_cut ≢ true → result ≡ status_code status }
{
    let status = status_over(status, closed);
    let code = finish(status, errors);
    if code != 0 {
        // The exit status tells it, too, where standard error can't.
        let _printed = write_why(image, status, restores, closed.failure, errors);
    }
    code
}

/// Prints a status, and answers its exit status.
fn finish(status: Status, errors: &mut StderrSink) -> u8
    ensures { result ≡ status_code status }
{
    // The exit status tells it, too, where standard error can't.
    let _printed = write_status(&status, errors);
    exit_status(&status)
}
