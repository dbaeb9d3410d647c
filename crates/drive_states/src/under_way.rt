//! What the drive's end of the cable is in the middle of.

ghost use Rattle.std.specs.Prelude.{◌≡◌, ◌<◌, ◌^◌, ◌==◌, nat_lt};
ghost use Rattle.drive_spec.specs.Reports.{report_width, report_word};
ghost use Rattle.drive_spec.specs.Terms.{tape_status, longer, begun};
ghost use Rattle.drive_spec.specs.Parameters.{parameter_trains, parameter_values, parameter_code};

use crate::deck::{segments_per_track, status_word, told_segments};
use drive_spec::{Deck, Parameter, UnderWay};
use qic117_commands::{Command, ErrorCode, Shifter};

/// How many bits the report of a command has, 8 or 16; 0 where the command asks for none (QIC-117).
pub fn report_width(command: Command) -> u8
    ensures { result ≡ report_width command }
{
    match command {
        Command::ReportStatus
        | Command::ReportConfiguration
        | Command::ReportRom
        | Command::ReportTapeStatus => 8,
        Command::ReportError | Command::ReportVendor | Command::ReportFormatSegments => 16,
        _ => 0,
    }
}

fn tape_status(segments_per_track: u16) -> u8
    ensures { result ≡ tape_status segments_per_track }
{
    let length = match segments_per_track {
        100 => 0x10,
        150 => 0x20,
        _ => 0x30,
    };
    0x02 + length
}

/// The word that the report of a command shows; 0 where it asks for none (this project's profile).
pub fn report_word(command: Command, deck: &Deck) -> u16
    ensures word { result ≡ report_word command deck.now }
    ensures fits { result < 2 ^ report_width command }
{
    let error = deck.error;
    match command {
        Command::ReportStatus => u16::from(status_word(deck)),
        Command::ReportError => error,
        Command::ReportRom => 0x01,
        Command::ReportVendor => 0x0080,
        Command::ReportTapeStatus => u16::from(tape_status(segments_per_track(deck))),
        Command::ReportFormatSegments => told_segments(deck),
        _ => 0x00,
    }
}

/// How many trains make up a command's parameter, 1 to 3; 0 where it takes none (QIC-117).
pub fn parameter_trains(command: Command) -> u8
    ensures { result ≡ parameter_trains command }
{
    match command {
        Command::SeekTrack => 1,
        Command::SkipReverse | Command::SkipForward => 2,
        Command::SetFormatSegments => 3,
        _ => 0,
    }
}

/// Whether a train may have this value: a track below 28, or a nibble.
pub(crate) fn admits(parameter: &Parameter, value: u8) -> bool
    ensures { result ≡ nat_lt value (parameter_values parameter.now.command) }
{
    match parameter.command {
        Command::SeekTrack => value < 28,
        _ => value < 16,
    }
}

/// The code of a value that none may have.
pub(crate) fn fault(parameter: &Parameter) -> ErrorCode
    ensures { result ≡ parameter_code parameter.now.command }
{
    match parameter.command {
        Command::SeekTrack => ErrorCode::IllegalTrack,
        _ => ErrorCode::UndefinedCommand,
    }
}

/// The parameter with one more value, of which the first is the lowest.
pub fn longer(parameter: Parameter, value: u8) -> Parameter
    requires taken { parameter.taken < 3 }
    requires nibbles { parameter.value < 16 ^ parameter.taken }
    requires value { value < 28 }
    ensures { result ≡ longer parameter value }
{
    let place = match parameter.taken {
        0 => 1,
        1 => 16,
        _ => 256,
    };
    Parameter {
        taken: parameter.taken + 1,
        value: parameter.value + u16::from(value) * place,
        ..parameter
    }
}

/// Whether all of it came.
pub fn is_whole(parameter: &Parameter) -> bool
    ensures { result ≡ (parameter.now.taken == parameter_trains parameter.now.command) }
{
    parameter.taken == parameter_trains(parameter.command)
}

/// What an accepted command leaves under way.
pub(crate) fn begun(command: Command, deck: &Deck) -> UnderWay
    ensures { result ≡ begun command deck.now }
{
    let width = report_width(command);
    if width > 0 {
        UnderWay::Report(Shifter::load(report_word(command, deck), width))
    } else if parameter_trains(command) > 0 {
        UnderWay::Awaited(Parameter {
            command,
            taken: 0,
            value: 0,
        })
    } else {
        UnderWay::Nothing
    }
}
