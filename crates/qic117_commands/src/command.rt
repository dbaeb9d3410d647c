//! The commands of the drive, and the numbers of step pulses that call for them.

ghost use Rattle.std.specs.Prelude.{◌≡◌, ◌↔◌, ◌≤◌, length, IsNone, IsTrue, Some};
ghost use Rattle.qic117_commands.specs.Commands.{command_at, number_of};
ghost use Rattle.qic117_commands.specs.RefusalTerms.{is_undefined};
ghost use Rattle.qic117_commands.specs.Names.{name_of};
ghost use Rattle.qic117_commands.specs.declared.command.Command.{Command};

/// A command of the drive. Its number is the count of step pulses in its train (QIC-117).
#[derive(Clone, Copy, PartialEq, Eq, Debug)]
pub enum Command {
    Reset = 1,
    ReportNextBit = 2,
    Pause = 3,
    MicroStepPause = 4,
    AlternateTimeout = 5,
    ReportStatus = 6,
    ReportError = 7,
    ReportConfiguration = 8,
    ReportRom = 9,
    LogicalForward = 10,
    PhysicalReverse = 11,
    PhysicalForward = 12,
    SeekTrack = 13,
    SeekLoadPoint = 14,
    EnterFormat = 15,
    WriteReference = 16,
    EnterVerify = 17,
    StopTape = 18,
    MicroStepUp = 21,
    MicroStepDown = 22,
    SoftSelect = 23,
    SoftDeselect = 24,
    SkipReverse = 25,
    SkipForward = 26,
    SelectRate = 27,
    Diagnostic1 = 28,
    Diagnostic2 = 29,
    EnterPrimary = 30,
    VendorUnique = 31,
    ReportVendor = 32,
    ReportTapeStatus = 33,
    ExtendedSkipReverse = 34,
    ExtendedSkipForward = 35,
    CalibrateLength = 36,
    ReportFormatSegments = 37,
    SetFormatSegments = 38,
    PhantomSelect = 46,
    PhantomDeselect = 47,
}

impl Command {
    /// Every command, by ascending number.
    pub const ALL: [Command; 38] = [
        Command::Reset,
        Command::ReportNextBit,
        Command::Pause,
        Command::MicroStepPause,
        Command::AlternateTimeout,
        Command::ReportStatus,
        Command::ReportError,
        Command::ReportConfiguration,
        Command::ReportRom,
        Command::LogicalForward,
        Command::PhysicalReverse,
        Command::PhysicalForward,
        Command::SeekTrack,
        Command::SeekLoadPoint,
        Command::EnterFormat,
        Command::WriteReference,
        Command::EnterVerify,
        Command::StopTape,
        Command::MicroStepUp,
        Command::MicroStepDown,
        Command::SoftSelect,
        Command::SoftDeselect,
        Command::SkipReverse,
        Command::SkipForward,
        Command::SelectRate,
        Command::Diagnostic1,
        Command::Diagnostic2,
        Command::EnterPrimary,
        Command::VendorUnique,
        Command::ReportVendor,
        Command::ReportTapeStatus,
        Command::ExtendedSkipReverse,
        Command::ExtendedSkipForward,
        Command::CalibrateLength,
        Command::ReportFormatSegments,
        Command::SetFormatSegments,
        Command::PhantomSelect,
        Command::PhantomDeselect,
    ];

    /// The number of the command: how many step pulses call for it, 1 to 47.
    pub fn number(self) -> u8
        ensures { result ≡ number_of self }
    {
        self as u8
    }

    /// The name of the command, as it is printed: at most 20 bytes.
    pub fn name(self) -> &'static str
        ensures name { result.now ≡ name_of self }
        ensures short { length result.now ≤ 20 }
    {
        match self {
            Command::Reset => "Reset",
            Command::ReportNextBit => "ReportNextBit",
            Command::Pause => "Pause",
            Command::MicroStepPause => "MicroStepPause",
            Command::AlternateTimeout => "AlternateTimeout",
            Command::ReportStatus => "ReportStatus",
            Command::ReportError => "ReportError",
            Command::ReportConfiguration => "ReportConfiguration",
            Command::ReportRom => "ReportRom",
            Command::LogicalForward => "LogicalForward",
            Command::PhysicalReverse => "PhysicalReverse",
            Command::PhysicalForward => "PhysicalForward",
            Command::SeekTrack => "SeekTrack",
            Command::SeekLoadPoint => "SeekLoadPoint",
            Command::EnterFormat => "EnterFormat",
            Command::WriteReference => "WriteReference",
            Command::EnterVerify => "EnterVerify",
            Command::StopTape => "StopTape",
            Command::MicroStepUp => "MicroStepUp",
            Command::MicroStepDown => "MicroStepDown",
            Command::SoftSelect => "SoftSelect",
            Command::SoftDeselect => "SoftDeselect",
            Command::SkipReverse => "SkipReverse",
            Command::SkipForward => "SkipForward",
            Command::SelectRate => "SelectRate",
            Command::Diagnostic1 => "Diagnostic1",
            Command::Diagnostic2 => "Diagnostic2",
            Command::EnterPrimary => "EnterPrimary",
            Command::VendorUnique => "VendorUnique",
            Command::ReportVendor => "ReportVendor",
            Command::ReportTapeStatus => "ReportTapeStatus",
            Command::ExtendedSkipReverse => "ExtendedSkipReverse",
            Command::ExtendedSkipForward => "ExtendedSkipForward",
            Command::CalibrateLength => "CalibrateLength",
            Command::ReportFormatSegments => "ReportFormatSegments",
            Command::SetFormatSegments => "SetFormatSegments",
            Command::PhantomSelect => "PhantomSelect",
            Command::PhantomDeselect => "PhantomDeselect",
        }
    }
}

/// The command that this many step pulses call for, where the number is a defined one (QIC-117).
#[tactic(auto, unfolding(crate::specs::Commands::command_at, crate::specs::Commands::commands))]
pub fn command_of(pulses: u8) -> Option<Command>
    ensures known { result ≡ command_at pulses }
    ensures inverse { (command : Command) → (result ≡ Some command) ↔ (number_of command ≡ pulses) }
    ensures undefined { IsNone result ↔ IsTrue (is_undefined pulses) }
{
    Command::ALL
        .iter()
        .copied()
        .find(|command| command.number() == pulses)
}
