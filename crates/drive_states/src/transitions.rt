//! The transitions of the typed drive (this project's profile of QIC-117).

ghost use Rattle.std.specs.Prelude.{◌≡◌, ◌<◌, IfOk, IfErr, IsSome, None, true};
ghost use Rattle.qic117_commands.specs.declared.command.Command.TheVariants as command;
ghost use Rattle.drive_spec.specs.Deck.{is_stopped};
ghost use Rattle.drive_spec.specs.Terms.{refusal_of};
ghost use Rattle.drive_spec.specs.Effects.{accepted, given, reset};
ghost use Rattle.drive_states.specs.Unreferenced.{unreferenced};
ghost use Rattle.drive_states.specs.Sound.{IsParameter};
ghost use Rattle.drive_states.specs.Ticks.{Ticks};
ghost use Rattle.drive_states.specs.Typed.{IsIn, Obeyed, Refuses, References, FailsToReference, skip_command};

use crate::deck::{is_stopped, refusal};
use crate::drive::{Drive, ReferenceFailed, Refused, Ticked};
use crate::effects::{accepted, given, reset, ticked, unreferenced};
use crate::states::{
    EntersFormat, EntersPrimary, EntersVerify, Format, Primary, Resets, Seeking, Skips, Standing,
    State, Verify,
};
use qic_base::{Tape, TapeFailed};
use qic117_commands::Command;

impl<S: State, T: Tape> Drive<S, T> {
    /// The drive after a command that no row refuses.
    fn accepted<N: State>(self, command: Command) -> Drive<N, T>
        requires taken { refusal_of self.deck command ≡ None }
        requires state { IsIn N.state (accepted command self.deck) }
        ensures { Obeyed self result command (accepted command self.deck) }
    {
        let (deck, tape) = self.into_parts();
        Drive::of(accepted(deck, command), tape)
    }

    /// The drive after a command that no row refuses, and that has its parameter.
    fn given<N: State>(self, command: Command, parameter: u16) -> Drive<N, T>
        requires taken { refusal_of self.deck command ≡ None }
        requires parameter { IsParameter command parameter }
        requires state { IsIn N.state (given command parameter self.deck) }
        ensures { Obeyed self result command (given command parameter self.deck) }
    {
        let (deck, tape) = self.into_parts();
        Drive::of(given(deck, command, parameter), tape)
    }
}

impl<M: Standing, T: Tape> Drive<M, T> {
    /// Logical forward: the tape streams, where it stands before a segment of its track.
    pub fn forward(self) -> Result<Drive<M::Moved, T>, Refused<M, T>>
        ensures obeyed { IfOk result (λ drive. Obeyed self drive command.LogicalForward
            (accepted command.LogicalForward self.deck)) }
        ensures refused { IfErr result (λ refused.
            Refuses self refused.drive command.LogicalForward refused.code) }
    {
        if let Some(code) = refusal(&self.deck, Command::LogicalForward) {
            return Err(Refused { drive: self, code });
        }
        Ok(self.accepted(Command::LogicalForward))
    }

    /// The tape stops; the head is then before the segment in which it was.
    pub fn stop(self) -> Drive<M, T>
        requires { IsSome self.deck.cartridge }
        ensures { Obeyed self result command.StopTape (accepted command.StopTape self.deck) }
    {
        self.reveal();
        self.accepted(Command::StopTape)
    }

    /// The head goes to a track, 0 to 27.
    pub fn seek_track(self, track: u8) -> Result<Drive<Seeking<M::Moved>, T>, Refused<M, T>>
        requires { track < 28 }
        ensures obeyed { IfOk result (λ drive. Obeyed self drive command.SeekTrack
            (given command.SeekTrack track self.deck)) }
        ensures refused { IfErr result (λ refused.
            Refuses self refused.drive command.SeekTrack refused.code) }
    {
        if let Some(code) = refusal(&self.deck, Command::SeekTrack) {
            return Err(Refused { drive: self, code });
        }
        Ok(self.given(Command::SeekTrack, u16::from(track)))
    }

    /// The drive seeks the start of track 0, which is the load point in Primary mode.
    pub fn seek_load_point(self) -> Result<Drive<Seeking<M::Home>, T>, Refused<M, T>>
        ensures obeyed { IfOk result (λ drive. Obeyed self drive command.SeekLoadPoint
            (accepted command.SeekLoadPoint self.deck)) }
        ensures refused { IfErr result (λ refused.
            Refuses self refused.drive command.SeekLoadPoint refused.code) }
    {
        if let Some(code) = refusal(&self.deck, Command::SeekLoadPoint) {
            return Err(Refused { drive: self, code });
        }
        Ok(self.accepted(Command::SeekLoadPoint))
    }
}

impl<M: Skips, T: Tape> Drive<M, T> {
    /// The tape skips so many segments of its track, at most to an end of it.
    pub fn skip(
        self,
        forward: bool,
        count: u8,
    ) -> Result<Drive<Seeking<M::Moved>, T>, Refused<M, T>>
        ensures obeyed { IfOk result (λ drive. Obeyed self drive (skip_command forward)
            (given (skip_command forward) count self.deck)) }
        ensures refused { IfErr result (λ refused.
            Refuses self refused.drive (skip_command forward) refused.code) }
    {
        let command = skip_command(forward);
        if let Some(code) = refusal(&self.deck, command) {
            return Err(Refused { drive: self, code });
        }
        Ok(self.given(command, u16::from(count)))
    }
}

impl<M: EntersFormat, T: Tape> Drive<M, T> {
    /// The drive enters Format mode, with as many format segments as the track has.
    pub fn enter_format(self) -> Result<Drive<Format, T>, Refused<M, T>>
        ensures obeyed { IfOk result (λ drive. Obeyed self drive command.EnterFormat
            (accepted command.EnterFormat self.deck)) }
        ensures refused { IfErr result (λ refused.
            Refuses self refused.drive command.EnterFormat refused.code) }
    {
        if let Some(code) = refusal(&self.deck, Command::EnterFormat) {
            return Err(Refused { drive: self, code });
        }
        Ok(self.accepted(Command::EnterFormat))
    }
}

impl<M: EntersVerify, T: Tape> Drive<M, T> {
    /// The drive enters Verify mode.
    pub fn enter_verify(self) -> Result<Drive<Verify, T>, Refused<M, T>>
        ensures obeyed { IfOk result (λ drive. Obeyed self drive command.EnterVerify
            (accepted command.EnterVerify self.deck)) }
        ensures refused { IfErr result (λ refused.
            Refuses self refused.drive command.EnterVerify refused.code) }
    {
        if let Some(code) = refusal(&self.deck, Command::EnterVerify) {
            return Err(Refused { drive: self, code });
        }
        Ok(self.accepted(Command::EnterVerify))
    }
}

impl<M: EntersPrimary, T: Tape> Drive<M, T> {
    /// The drive enters Primary mode; it does not stand at the load point.
    pub fn enter_primary(self) -> Drive<Primary, T>
        requires { is_stopped self.deck.motion ≡ true }
        ensures { Obeyed self result command.EnterPrimary (accepted command.EnterPrimary self.deck) }
    {
        self.reveal();
        self.accepted(Command::EnterPrimary)
    }
}

impl<T: Tape> Drive<Format, T> {
    /// Writes the reference bursts, and seeks the start of track 0. Where the tape fails, the drive seeks too, and is
    /// not referenced.
    pub fn write_reference(self) -> Result<Drive<Seeking<Format>, T>, ReferenceFailed<T>>
        requires { is_stopped self.deck.motion ≡ true }
        ensures obeyed { IfOk result (λ drive. References T.means self drive
            (accepted command.WriteReference self.deck)) }
        ensures failed { IfErr result (λ failed. FailsToReference T.means self failed.drive
            (unreferenced (accepted command.WriteReference self.deck))) }
    {
        let (deck, mut tape) = self.into_parts();
        let deck = accepted(deck, Command::WriteReference);
        match tape.set_referenced() {
            Ok(()) => Ok(Drive::of(deck, tape)),
            Err(TapeFailed) => Err(ReferenceFailed {
                drive: Drive::of(unreferenced(deck), tape),
            }),
        }
    }

    /// Sets the number of format segments, below 4,096.
    pub fn set_segments(self, count: u16) -> Drive<Format, T>
        requires stopped { is_stopped self.deck.motion ≡ true }
        requires fits { count < 4096 }
        ensures { Obeyed self result command.SetFormatSegments
            (given command.SetFormatSegments count self.deck) }
    {
        self.reveal();
        self.given(Command::SetFormatSegments, count)
    }
}

impl<S: Resets, T: Tape> Drive<S, T> {
    /// The drive is reset: it stops in Primary mode, and a seek that is broken off leaves its target's offset.
    pub fn reset(self) -> Drive<S::Reset, T>
        ensures { result ≡ record self { deck = reset self.deck } }
    {
        let (deck, tape) = self.into_parts();
        Drive::of(reset(deck), tape)
    }
}

impl<M: Standing, T: Tape> Drive<Seeking<M>, T> {
    /// A gap of the seek.
    pub fn tick(self) -> Ticked<M, T>
        ensures { Ticks self result }
    {
        let (deck, tape) = self.into_parts();
        let deck = ticked(deck);
        if is_stopped(&deck) {
            Ticked::There(Drive::of(deck, tape))
        } else {
            Ticked::Still(Drive::of(deck, tape))
        }
    }
}

fn skip_command(forward: bool) -> Command
    ensures { result ≡ skip_command forward }
{
    if forward {
        Command::SkipForward
    } else {
        Command::SkipReverse
    }
}
