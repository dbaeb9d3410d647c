//! The exit status of a copy's end, and its line.

ghost use Rattle.std.specs.Prelude.{◌≡◌};
ghost use Rattle.qic_base.specs.SinkCalls.{Writes};
ghost use Rattle.volume_copy.specs.Lines.{status_code, status_text};

use command_spec::CopyStatus;
use qic_base::{Sink, SinkFailed, write_text};

/// The exit status of the program.
pub fn exit_status(status: &CopyStatus) -> u8
    ensures { result ≡ status_code status.now }
{
    match status {
        CopyStatus::Done => 0,
        CopyStatus::Usage => 2,
        CopyStatus::SinkFault => 17,
        CopyStatus::NoMemory => 19,
        CopyStatus::FromAbsent => 30,
        CopyStatus::ToAbsent => 31,
        CopyStatus::From { .. } => 32,
        CopyStatus::To { .. } => 33,
        CopyStatus::Differs { .. } => 34,
    }
}

/// The line of a status: where there is no cartridge, and no other has one.
fn status_line(status: &CopyStatus) -> &'static [u8]
    ensures { result.now ≡ status_text status.now }
{
    match status {
        CopyStatus::FromAbsent | CopyStatus::ToAbsent => b"tape_dup: no cartridge\n",
        CopyStatus::Done
        | CopyStatus::Usage
        | CopyStatus::SinkFault
        | CopyStatus::NoMemory
        | CopyStatus::From { .. }
        | CopyStatus::To { .. }
        | CopyStatus::Differs { .. } => b"",
    }
}

/// Writes the line of a status, where it has one.
pub fn write_status<K: Sink>(status: &CopyStatus, sink: &mut K) -> Result<(), SinkFailed>
    ensures { Writes K.means sink.old sink.new (status_text status.now) result }
{
    write_text(status_line(status), sink)
}
