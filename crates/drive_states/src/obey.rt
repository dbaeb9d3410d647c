//! How an accepted command moves a drive from one state to another.

ghost use Rattle.std.specs.Prelude.{◌≡◌, ◌<◌, [], ◌∷◌, OnOk, OnErr, None};
ghost use Rattle.qic117_commands.specs.declared.command.Command.TheVariants as named;
ghost use Rattle.qic_base.specs.Step.{SetReferenced};
ghost use Rattle.qic_base.specs.TapeCalls.{Does};
ghost use Rattle.drive_spec.specs.Terms.{refusal_of};
ghost use Rattle.drive_spec.specs.Effects.{accepted, given};
ghost use Rattle.drive_spec.specs.Parameters.{parameter_trains};
ghost use Rattle.drive_spec.specs.Steps.{reference_steps};
ghost use Rattle.drive_states.specs.AnyDrive.{drive_of};
ghost use Rattle.drive_states.specs.Unreferenced.{unreferenced};
ghost use Rattle.drive_states.specs.Sound.{IsParameter};
ghost use Rattle.drive_states.specs.Typed.{skip_command};

use crate::any_drive::AnyDrive;
use crate::drive::ReferenceFailed;
use qic_base::{Tape, TapeFailed};
use qic117_commands::Command;

/// The drive after a call that its state has and that no row refuses: the state, and that to which the call leads.
macro_rules! obeyed {
    ($any:expr, $call:ident $arguments:tt: $($state:ident => $after:ident,)*) => {
        match $any {
            $(AnyDrive::$state(drive) => match drive.$call $arguments {
                Ok(drive) => AnyDrive::$after(drive),
                Err(_) => unreachable!("no row refuses the command"),
            },)*
            _ => unreachable!("the other states refuse the command"),
        }
    };
}

impl<T: Tape> AnyDrive<T> {
    /// The tape streams.
    fn forward(self) -> AnyDrive<T>
        requires { refusal_of (drive_of self).deck named.LogicalForward ≡ None }
        ensures { drive_of result ≡ record (drive_of self) {
          deck = accepted named.LogicalForward (drive_of self).deck;
        } }
    {
        self.reveal();
        obeyed!(self, forward():
            LoadPoint => Primary,
            Primary => Primary,
            Format => Format,
            Verify => Verify,
        )
    }

    /// The drive seeks the start of track 0.
    fn seek_load_point(self) -> AnyDrive<T>
        requires { refusal_of (drive_of self).deck named.SeekLoadPoint ≡ None }
        ensures { drive_of result ≡ record (drive_of self) {
          deck = accepted named.SeekLoadPoint (drive_of self).deck;
        } }
    {
        self.reveal();
        obeyed!(self, seek_load_point():
            LoadPoint => SeekingLoadPoint,
            Primary => SeekingLoadPoint,
            Format => SeekingFormat,
            Verify => SeekingVerify,
        )
    }

    /// The drive enters Format mode.
    fn enter_format(self) -> AnyDrive<T>
        requires { refusal_of (drive_of self).deck named.EnterFormat ≡ None }
        ensures { drive_of result ≡ record (drive_of self) {
          deck = accepted named.EnterFormat (drive_of self).deck;
        } }
    {
        self.reveal();
        obeyed!(self, enter_format():
            LoadPoint => Format,
            Primary => Format,
        )
    }

    /// The drive enters Verify mode.
    fn enter_verify(self) -> AnyDrive<T>
        requires { refusal_of (drive_of self).deck named.EnterVerify ≡ None }
        ensures { drive_of result ≡ record (drive_of self) {
          deck = accepted named.EnterVerify (drive_of self).deck;
        } }
    {
        self.reveal();
        obeyed!(self, enter_verify():
            LoadPoint => Verify,
            Primary => Verify,
            Format => Verify,
        )
    }

    /// The drive enters Primary mode, where it is in another.
    fn enter_primary(self) -> AnyDrive<T>
        requires { refusal_of (drive_of self).deck named.EnterPrimary ≡ None }
        ensures { drive_of result ≡ record (drive_of self) {
          deck = accepted named.EnterPrimary (drive_of self).deck;
        } }
    {
        self.reveal();
        match self {
            AnyDrive::LoadPoint(drive) => AnyDrive::LoadPoint(drive),
            AnyDrive::Primary(drive) => AnyDrive::Primary(drive),
            AnyDrive::Format(drive) => AnyDrive::Primary(drive.enter_primary()),
            AnyDrive::Verify(drive) => AnyDrive::Primary(drive.enter_primary()),
            _ => unreachable!("a seek refuses the command"),
        }
    }

    /// The tape stops.
    fn stop(self) -> AnyDrive<T>
        requires { refusal_of (drive_of self).deck named.StopTape ≡ None }
        ensures { drive_of result ≡ record (drive_of self) {
          deck = accepted named.StopTape (drive_of self).deck;
        } }
    {
        self.reveal();
        match self {
            AnyDrive::LoadPoint(drive) => AnyDrive::LoadPoint(drive.stop()),
            AnyDrive::Primary(drive) => AnyDrive::Primary(drive.stop()),
            AnyDrive::Format(drive) => AnyDrive::Format(drive.stop()),
            AnyDrive::Verify(drive) => AnyDrive::Verify(drive.stop()),
            _ => unreachable!("a seek refuses the command"),
        }
    }

    /// A command that does nothing to the cartridge.
    fn obey_reading(mut self, command: Command) -> AnyDrive<T>
        requires taken { refusal_of (drive_of self).deck command ≡ None }
        requires reads { ¬ (command ≡ named.WriteReference) }
        ensures { drive_of result ≡ record (drive_of self) {
          deck = accepted command (drive_of self).deck;
        } }
    {
        match command {
            Command::ReportError => {
                self.set_error(0, false);
                self
            }
            Command::LogicalForward => self.forward(),
            Command::SeekLoadPoint => self.seek_load_point(),
            Command::EnterFormat => self.enter_format(),
            Command::EnterVerify => self.enter_verify(),
            Command::EnterPrimary => self.enter_primary(),
            Command::StopTape => self.stop(),
            _ => self,
        }
    }

    /// The reference bursts are written, and the drive seeks the start of track 0.
    fn write_reference(self) -> (AnyDrive<T>, Result<(), TapeFailed>)
        requires { refusal_of (drive_of self).deck named.WriteReference ≡ None }
        ensures did { Does T.means (drive_of self).tape (drive_of result.0).tape
            (SetReferenced ∷ []) result.1 }
        ensures ok { OnOk result.1 ((drive_of result.0).deck
            ≡ accepted named.WriteReference (drive_of self).deck) }
        ensures failed { OnErr result.1 ((drive_of result.0).deck
            ≡ unreferenced (accepted named.WriteReference (drive_of self).deck)) }
        ensures size { T.means.size (drive_of result.0).tape ≡ T.means.size (drive_of self).tape }
    {
        self.reveal();
        match self {
            AnyDrive::Format(drive) => match drive.write_reference() {
                Ok(drive) => (AnyDrive::SeekingFormat(drive), Ok(())),
                Err(ReferenceFailed { drive }) => (AnyDrive::SeekingFormat(drive), Err(TapeFailed)),
            },
            _ => unreachable!("the other states refuse the command"),
        }
    }

    /// Carries out a command that no row refuses. The Err is a tape that failed to write the reference bursts.
    pub fn obey(self, command: Command) -> (AnyDrive<T>, Result<(), TapeFailed>)
        requires { refusal_of (drive_of self).deck command ≡ None }
        ensures did { Does T.means (drive_of self).tape (drive_of result.0).tape (reference_steps command) result.1 }
        ensures ok { OnOk result.1 ((drive_of result.0).deck ≡ accepted command (drive_of self).deck) }
        ensures failed { OnErr result.1 ((command ≡ named.WriteReference)
            × ((drive_of result.0).deck ≡ unreferenced (accepted command (drive_of self).deck))) }
        ensures untouched { reference_steps command ≡ [] → (drive_of result.0).tape ≡ (drive_of self).tape }
        ensures size { T.means.size (drive_of result.0).tape ≡ T.means.size (drive_of self).tape }
    {
        match command {
            Command::WriteReference => self.write_reference(),
            _ => (self.obey_reading(command), Ok(())),
        }
    }

    /// The head goes to a track, 0 to 27.
    fn seek_track(self, track: u8) -> AnyDrive<T>
        requires taken { refusal_of (drive_of self).deck named.SeekTrack ≡ None }
        requires track { track < 28 }
        ensures { drive_of result ≡ record (drive_of self) {
          deck = given named.SeekTrack track (drive_of self).deck;
        } }
    {
        self.reveal();
        obeyed!(self, seek_track(track):
            LoadPoint => SeekingPrimary,
            Primary => SeekingPrimary,
            Format => SeekingFormat,
            Verify => SeekingVerify,
        )
    }

    /// The tape skips so many segments of its track.
    fn skip(self, forward: bool, count: u8) -> AnyDrive<T>
        requires { refusal_of (drive_of self).deck (skip_command forward) ≡ None }
        ensures { drive_of result ≡ record (drive_of self) {
          deck = given (skip_command forward) count (drive_of self).deck;
        } }
    {
        self.reveal();
        obeyed!(self, skip(forward, count):
            LoadPoint => SeekingPrimary,
            Primary => SeekingPrimary,
            Verify => SeekingVerify,
        )
    }

    /// The number of format segments is set, below 4,096.
    fn set_segments(self, count: u16) -> AnyDrive<T>
        requires taken { refusal_of (drive_of self).deck named.SetFormatSegments ≡ None }
        requires fits { count < 4096 }
        ensures { drive_of result ≡ record (drive_of self) {
          deck = given named.SetFormatSegments count (drive_of self).deck;
        } }
    {
        self.reveal();
        match self {
            AnyDrive::Format(drive) => AnyDrive::Format(drive.set_segments(count)),
            _ => unreachable!("the other states refuse the command"),
        }
    }

    /// Carries out a command that no row refuses, and that has its parameter.
    pub fn give(self, command: Command, parameter: u16) -> AnyDrive<T>
        requires taken { refusal_of (drive_of self).deck command ≡ None }
        requires trains { 0 < parameter_trains command }
        requires parameter { IsParameter command parameter }
        ensures { drive_of result ≡ record (drive_of self) {
          deck = given command parameter (drive_of self).deck;
        } }
    {
        match command {
            Command::SeekTrack => self.seek_track(parameter as u8),
            Command::SkipReverse => self.skip(false, parameter as u8),
            Command::SkipForward => self.skip(true, parameter as u8),
            Command::SetFormatSegments => self.set_segments(parameter),
            _ => unreachable!("no other command takes a parameter"),
        }
    }
}
