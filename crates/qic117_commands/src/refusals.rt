//! Which commands a drive refuses, by a table of this project's profile of QIC-117.

ghost use Rattle.std.specs.Prelude.{◌≡◌, ◌⊎◌, ◌&&◌, IsNone, is_some, find, option_map};
ghost use Rattle.std.specs.List.{list_any};
ghost use Rattle.qic117_commands.specs.Refusals.{first_refusal, refusal_rows, is_unsupported, is_diagnostic, needs_cartridge, waits_for_seek, waits_for_stop, illegal_in_primary, illegal_in_format, illegal_in_verify, needs_writable, needs_known_cartridge, needs_reference, needs_logical_bot};
ghost use Rattle.qic117_commands.specs.RefusalTerms.{refuses, stands_past_bot};
ghost use Rattle.qic117_commands.specs.declared.command.Command.TheVariants.{Reset, ReportNextBit};

use crate::command::Command;
use crate::error_code::{ErrorCode, ErrorCode as Code};
use crate::view::{DriveView, Mode, Motion};

/// The code with which a drive that has no report under way and awaits no parameter refuses a command, or None where
/// it obeys (this project's profile).
/// `Reset` and `ReportNextBit` are never refused.
pub fn refusal(view: &DriveView, command: Command) -> Option<ErrorCode>
    ensures first { result ≡ first_refusal view.now command }
    ensures refused { is_some result ≡ list_any (refuses view.now command) refusal_rows }
    ensures obeyed { (command ≡ Reset) ⊎ (command ≡ ReportNextBit) → IsNone result }
{
    let DriveView {
        present,
        motion,
        mode,
        protected,
        fresh,
        referenced,
        ..
    } = *view;
    let (seeking, streaming) = (motion == Motion::Seeking, motion == Motion::Streaming);
    let (primary, format) = (mode == Mode::Primary, mode == Mode::Format);
    let verify = mode == Mode::Verify;
    let past_bot = stands_past_bot(view);
    first_refusing(&[
        (Code::UndefinedCommand, is_unsupported(command), true),
        (Code::IllegalDiagnostic, is_diagnostic(command), true),
        (Code::NoCartridge, needs_cartridge(command), !present),
        (Code::NotReady, waits_for_seek(command), seeking),
        (Code::NotReady, waits_for_stop(command), streaming),
        (Code::IllegalInPrimary, illegal_in_primary(command), primary),
        (Code::IllegalInFormat, illegal_in_format(command), format),
        (Code::IllegalInVerify, illegal_in_verify(command), verify),
        (Code::WriteProtected, needs_writable(command), protected),
        (Code::NewCartridge, needs_known_cartridge(command), fresh),
        (Code::NotReferenced, needs_reference(command), !referenced),
        (Code::NotAtLogicalBot, needs_logical_bot(command), past_bot),
    ])
}

/// The code of the first row that covers the command and holds.
fn first_refusing(rows: &[(ErrorCode, bool, bool)]) -> Option<ErrorCode>
    ensures { result ≡ option_map (λ row. row.0) (find (λ row. row.1 && row.2) rows.now) }
{
    rows.iter()
        .find(|(_, covers, holds)| *covers && *holds)
        .map(|(code, _, _)| *code)
}

#[tactic(auto, unfolding(crate::specs::Refusals::is_unsupported))]
fn is_unsupported(command: Command) -> bool
    ensures { result ≡ is_unsupported command }
{
    matches!(
        command,
        Command::Pause
            | Command::MicroStepPause
            | Command::AlternateTimeout
            | Command::PhysicalReverse
            | Command::PhysicalForward
            | Command::MicroStepUp
            | Command::MicroStepDown
            | Command::SoftSelect
            | Command::SoftDeselect
            | Command::SelectRate
            | Command::VendorUnique
            | Command::ExtendedSkipReverse
            | Command::ExtendedSkipForward
            | Command::CalibrateLength
            | Command::PhantomSelect
            | Command::PhantomDeselect
    )
}

#[tactic(auto, unfolding(crate::specs::Refusals::is_diagnostic))]
fn is_diagnostic(command: Command) -> bool
    ensures { result ≡ is_diagnostic command }
{
    matches!(command, Command::Diagnostic1 | Command::Diagnostic2)
}

#[tactic(auto, unfolding(crate::specs::Refusals::needs_cartridge))]
fn needs_cartridge(command: Command) -> bool
    ensures { result ≡ needs_cartridge command }
{
    matches!(
        command,
        Command::LogicalForward
            | Command::SeekTrack
            | Command::SeekLoadPoint
            | Command::EnterFormat
            | Command::WriteReference
            | Command::EnterVerify
            | Command::StopTape
            | Command::SkipReverse
            | Command::SkipForward
            | Command::EnterPrimary
            | Command::ReportTapeStatus
            | Command::ReportFormatSegments
            | Command::SetFormatSegments
    )
}

#[tactic(auto, unfolding(crate::specs::Refusals::waits_for_seek))]
fn waits_for_seek(command: Command) -> bool
    ensures { result ≡ waits_for_seek command }
{
    !matches!(
        command,
        Command::Reset | Command::ReportNextBit | Command::ReportStatus | Command::ReportError
    )
}

#[tactic(auto, unfolding(crate::specs::Refusals::waits_for_stop))]
fn waits_for_stop(command: Command) -> bool
    ensures { result ≡ waits_for_stop command }
{
    !matches!(
        command,
        Command::Reset
            | Command::ReportNextBit
            | Command::ReportStatus
            | Command::ReportError
            | Command::LogicalForward
            | Command::StopTape
    )
}

#[tactic(auto, unfolding(crate::specs::Refusals::illegal_in_primary))]
fn illegal_in_primary(command: Command) -> bool
    ensures { result ≡ illegal_in_primary command }
{
    matches!(
        command,
        Command::WriteReference | Command::SetFormatSegments
    )
}

#[tactic(auto, unfolding(crate::specs::Refusals::illegal_in_format))]
fn illegal_in_format(command: Command) -> bool
    ensures { result ≡ illegal_in_format command }
{
    matches!(
        command,
        Command::EnterFormat | Command::SkipReverse | Command::SkipForward
    )
}

#[tactic(auto, unfolding(crate::specs::Refusals::illegal_in_verify))]
fn illegal_in_verify(command: Command) -> bool
    ensures { result ≡ illegal_in_verify command }
{
    matches!(
        command,
        Command::EnterFormat
            | Command::WriteReference
            | Command::EnterVerify
            | Command::SetFormatSegments
    )
}

#[tactic(auto, unfolding(crate::specs::Refusals::needs_writable))]
fn needs_writable(command: Command) -> bool
    ensures { result ≡ needs_writable command }
{
    matches!(command, Command::EnterFormat)
}

#[tactic(auto, unfolding(crate::specs::Refusals::needs_known_cartridge))]
fn needs_known_cartridge(command: Command) -> bool
    ensures { result ≡ needs_known_cartridge command }
{
    matches!(
        command,
        Command::LogicalForward
            | Command::SeekTrack
            | Command::SeekLoadPoint
            | Command::EnterFormat
            | Command::EnterVerify
            | Command::SkipReverse
            | Command::SkipForward
    )
}

#[tactic(auto, unfolding(crate::specs::Refusals::needs_reference))]
fn needs_reference(command: Command) -> bool
    ensures { result ≡ needs_reference command }
{
    matches!(
        command,
        Command::LogicalForward
            | Command::SeekTrack
            | Command::EnterVerify
            | Command::SkipReverse
            | Command::SkipForward
    )
}

#[tactic(auto, unfolding(crate::specs::Refusals::needs_logical_bot))]
fn needs_logical_bot(command: Command) -> bool
    ensures { result ≡ needs_logical_bot command }
{
    matches!(command, Command::LogicalForward)
}

fn stands_past_bot(view: &DriveView) -> bool
    ensures { result ≡ stands_past_bot view.now }
{
    view.mode == Mode::Format && view.offset != 0 && view.motion == Motion::Stopped
}
