//! The line of `protect`, and how a command ends that has written its text.

ghost use Rattle.std.specs.Prelude.{◌≡◌};
ghost use Rattle.command_spec.specs.Lines.{protected_line};
ghost use Rattle.hand_commands.specs.Writing.{printed_status};

use command_spec::Status;
use qic_base::SinkFailed;

/// Whether the cartridge is protected now.
pub fn protected_text(on: bool) -> &'static [u8]
    ensures { result.now ≡ protected_line on }
{
    if on {
        b"protected on\n"
    } else {
        b"protected off\n"
    }
}

/// How a command ends that has written its text, or hasn't.
pub fn printed(written: Result<(), SinkFailed>) -> Status
    ensures { result ≡ printed_status written }
{
    match written {
        Ok(()) => Status::Done,
        Err(SinkFailed) => Status::SinkFault,
    }
}
