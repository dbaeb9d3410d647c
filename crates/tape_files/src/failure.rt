//! What is known of a call that failed.

ghost use Rattle.std.specs.Prelude.{◌≡◌};
ghost use Rattle.tape_files.specs.Failures.{failure_by};

use std::io;
use std::io::ErrorKind;

/// Why a call of a file failed, as far as that is known.
#[derive(Clone, Copy, Debug, PartialEq, Eq)]
pub enum Failure {
    /// The file was to be written, and is opened for reading alone.
    ReadAlone,
    /// The system's number of the error, one of Linux.
    Number(u32),
    /// The file ended before the bytes that it was seen to have: it got shorter under the run.
    Shorter,
    /// The system told no number.
    Untold,
}

impl Failure {
    /// What the system said.
    pub(crate) fn of(error: &io::Error) -> Failure
        ensures { result ≡ failure_by error.now }
    {
        match error.raw_os_error() {
            Some(number) => Failure::Number(number.unsigned_abs()),
            None if error.kind() == ErrorKind::UnexpectedEof => Failure::Shorter,
            None => Failure::Untold,
        }
    }
}
