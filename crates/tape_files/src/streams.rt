//! The standard streams.

ghost use Rattle.std.specs.Prelude.{◌≡◌, ◌≤◌, IfSome};

use crate::retry::{read_some, write_some};
use qic_base::{Sink, SinkFailed, Source, SourceFailed};
use std::io;
use std::io::{Stderr, Stdin, Stdout};
use std::marker::Model;

/// Standard input as a source. It counts its failures, and tells nothing of its bytes.
#[derive(Drop)]
pub struct StdinSource {
    stdin: Stdin,
    faults: u64,
}

/// Standard output as a sink. It counts its failures, and tells nothing of what it took.
#[derive(Drop)]
pub struct StdoutSink {
    stdout: Stdout,
    faults: u64,
}

/// Standard error as a sink, as standard output.
#[derive(Drop)]
pub struct StderrSink {
    stderr: Stderr,
    faults: u64,
}

impl Model for StdinSource {
    ghost use Rattle.std.specs.Prelude.{ℕ};

    ghost Value = { ℕ };

    ghost view = { λ s. s.faults };
}

impl Model for StdoutSink {
    ghost use Rattle.std.specs.Prelude.{ℕ};

    ghost Value = { ℕ };

    ghost view = { λ s. s.faults };
}

impl Model for StderrSink {
    ghost use Rattle.std.specs.Prelude.{ℕ};

    ghost Value = { ℕ };

    ghost view = { λ s. s.faults };
}

impl StdinSource {
    /// A source that has not failed yet.
    pub fn new(stdin: Stdin) -> StdinSource
        ensures { result ≡ 0 }
    {
        StdinSource { stdin, faults: 0 }
    }
}

impl StdoutSink {
    /// A sink that has not failed yet.
    pub fn new(stdout: Stdout) -> StdoutSink
        ensures { result ≡ 0 }
    {
        StdoutSink { stdout, faults: 0 }
    }
}

impl StderrSink {
    /// A sink that has not failed yet.
    pub fn new(stderr: Stderr) -> StderrSink
        ensures { result ≡ 0 }
    {
        StderrSink { stderr, faults: 0 }
    }
}

impl Source for StdinSource {
    ghost use Rattle.tape_files.specs.Edge.{stream_source_means};

    ghost means = { stream_source_means };

    ghost keeps_itself = { λ s. tt };

    ghost keeps_on = { λ a b c first next. tt };

    fn read(&mut self, into: &mut [u8]) -> Result<usize, SourceFailed> {
        match read_some(&mut self.stdin, into) {
            Ok(count) => Ok(count),
            Err(_) => {
                self.faults = self.faults.saturating_add(1);
                Err(SourceFailed)
            }
        }
    }
}

/// The answer of a stream to a write; one that took nothing failed.
fn some_taken(answer: io::Result<usize>) -> Option<usize>
    ensures { IfSome result (λ n. (answer ≡ Ok n) × (1 ≤ n)) }
{
    match answer {
        Ok(count) if count > 0 => Some(count),
        _ => None,
    }
}

impl Sink for StdoutSink {
    ghost use Rattle.std.specs.Prelude.{refl};
    ghost use Rattle.tape_files.specs.Edge.{stream_sink_means};

    ghost means = { stream_sink_means };

    ghost took_nothing = { λ k. tt };

    ghost took_both = { λ a b c xs ys first next. tt };

    ghost took_told = { λ a b xs took. refl };

    fn write(&mut self, from: &[u8]) -> Result<usize, SinkFailed> {
        match some_taken(write_some(&mut self.stdout, from)) {
            Some(count) => Ok(count),
            None => {
                self.faults = self.faults.saturating_add(1);
                Err(SinkFailed)
            }
        }
    }
}

impl Sink for StderrSink {
    ghost use Rattle.std.specs.Prelude.{refl};
    ghost use Rattle.tape_files.specs.Edge.{stream_sink_means};

    ghost means = { stream_sink_means };

    ghost took_nothing = { λ k. tt };

    ghost took_both = { λ a b c xs ys first next. tt };

    ghost took_told = { λ a b xs took. refl };

    fn write(&mut self, from: &[u8]) -> Result<usize, SinkFailed> {
        match some_taken(write_some(&mut self.stderr, from)) {
            Some(count) => Ok(count),
            None => {
                self.faults = self.faults.saturating_add(1);
                Err(SinkFailed)
            }
        }
    }
}
