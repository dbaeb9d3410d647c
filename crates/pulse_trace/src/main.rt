//! The program: the dialogue of a recording on standard input, on standard output.
#![tactic(auto)]

ghost use Rattle.std.specs.Prelude.{◌≡◌};
ghost use Rattle.pulse_trace.specs.Runs.{status_code};

mod run;
mod status;

use message_text::{Asks, what_is_asked};
use program_words::read_command_line;
use qic_base::write_text;
use run::{run_trace, unread};
use status::{TraceStatus, status_line};
use std::process::ExitCode;
use tape_files::{NullStreams, StderrSink, StdinSource, StdoutSink};

fn main(rt: HostRuntime) -> ExitCode {
    // A standard stream that is closed is so to the end.
    let _streams = NullStreams::take(&rt);
    let status = match read_command_line(&rt) {
        Ok(words) => answer(&rt, &words),
        Err(error) => unread(error.kind()),
    };
    ExitCode::from(finish(status, &mut StderrSink::new(rt.stderr())))
}

/// Does what the words ask for, the program's name the first of them: a page if that is the only word, else a run.
fn answer(rt: &HostRuntime, words: &Vec<String>) -> TraceStatus {
    let mut sink = StdoutSink::new(rt.stdout());
    let asked = match words.as_slice() {
        [_, behind @ ..] => what_is_asked(behind),
        [] => None,
    };
    let page = match asked {
        Some(Asks::Help) => HELP,
        Some(Asks::Version) => b"pulse_trace 1.0\n",
        None => {
            let mut source = StdinSource::new(rt.stdin());
            return run_trace(rt.alloc(), words, &mut source, &mut sink);
        }
    };
    match write_text(page, &mut sink) {
        Ok(()) => TraceStatus::Done,
        Err(_) => TraceStatus::SinkFault,
    }
}

/// Prints the line of a status, and answers its exit status.
fn finish(status: TraceStatus, errors: &mut StderrSink) -> u8
    ensures { result ≡ status_code status }
{
    // The exit status tells it, too, where standard error can't.
    let _printed = write_text(status_line(status).bytes(), errors);
    status.code()
}

const HELP: &[u8] = b"usage: pulse_trace [--gap MICROSECONDS]

Reads a recording of a drive cable from standard input, and writes the dialogue
in it to standard output. A pulse that comes later than the gap, 1000 unless one
from 1 to 1000000 is given, begins the next train. Exit status 0: done; 2:
usage; 3: a line is not valid; the others in 'man pulse_trace'.
";
