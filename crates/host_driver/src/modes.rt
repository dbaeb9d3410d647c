//! Modes, and the reference bursts.

ghost use Rattle.std.specs.Prelude.{◌≡◌, ◌↔◌, [], ◌∷◌, None, true, false, OnOk, OnErr, IsErr};
ghost use Rattle.qic_base.specs.Step.{SetReferenced};
ghost use Rattle.qic_base.specs.TapeCalls.{Does};
ghost use Rattle.qic117_commands.specs.Views.{is_format};
ghost use Rattle.drive_spec.specs.Deck.{is_stopped};
ghost use Rattle.drive_spec.specs.Terms.{is_protected, is_referenced, refusal_of, referenced_as};
ghost use Rattle.drive_spec.specs.Effects.{accepted};
ghost use Rattle.host_driver.specs.Calls.{IsReady};
ghost use Rattle.host_driver.specs.Commands.{entry_of};
ghost use Rattle.host_driver.specs.Fits.{Fits, IsAtRest, AgreesWithTape};
ghost use Rattle.host_driver.specs.Place.{StandsAt};

use crate::fault::WriteProtected;
use crate::host::Host;
use drive_states::Unit;
use drive_states::deck::refusal;
use qic_base::{Tape, TapeFailed};
use qic117_commands::{Command, Mode};

impl Host {
    /// Has the drive enter a mode, where the tape stands. Where the present mode refuses that, it enters Primary first.
    /// Verify needs a cartridge with its reference bursts.
    pub fn enter<T: Tape>(&mut self, unit: &mut Unit<T>, mode: Mode) -> Result<(), WriteProtected>
        requires ready { IsReady T.means self.old unit.old }
        requires stopped { is_stopped unit.old.drive.deck.motion ≡ true }
        requires referenced { mode ≡ Mode.Verify → is_referenced unit.old.drive.deck ≡ true }
        ensures protected { IsErr result
            ↔ ((mode ≡ Mode.Format) × (is_protected unit.old.drive.deck ≡ true)) }
        ensures refused { OnErr result ((unit.new ≡ unit.old) × (self.new ≡ self.old)) }
        ensures mode { OnOk result (unit.new.drive.deck.mode ≡ mode) }
        ensures place { StandsAt unit.old.drive.deck.track unit.old.drive.deck.offset
            unit.new.drive.deck }
        ensures cartridge { unit.new.drive.deck.cartridge ≡ unit.old.drive.deck.cartridge }
        ensures tape { unit.new.tape ≡ unit.old.tape }
        ensures ready { IsReady T.means self.new unit.new }
    {
        if mode == Mode::Format && self.protected() {
            return Err(WriteProtected);
        }
        if refusal(&self.deck, entry_of(mode)).is_none() {
            self.enter_at_once(unit, mode);
            return Ok(());
        }
        self.enter_at_once(unit, Mode::Primary);
        self.enter_at_once(unit, mode);
        Ok(())
    }

    /// Has the drive enter a mode from the present one, where no row refuses that.
    pub(crate) fn enter_at_once<T: Tape>(&mut self, unit: &mut Unit<T>, mode: Mode)
        requires ready { IsReady T.means self.old unit.old }
        requires stopped { is_stopped unit.old.drive.deck.motion ≡ true }
        requires taken { refusal_of unit.old.drive.deck (entry_of mode) ≡ None }
        ensures deck { unit.new.drive.deck ≡ accepted (entry_of mode) unit.old.drive.deck }
        ensures mode { unit.new.drive.deck.mode ≡ mode }
        ensures place { StandsAt unit.old.drive.deck.track unit.old.drive.deck.offset
            unit.new.drive.deck }
        ensures cartridge { unit.new.drive.deck.cartridge ≡ unit.old.drive.deck.cartridge }
        ensures tape { unit.new.tape ≡ unit.old.tape }
        ensures ready { IsReady T.means self.new unit.new }
    {
        self.command(unit, entry_of(mode));
    }

    /// Has the drive write the reference bursts, in Format mode where the tape stands, and waits for it. After a
    /// failure the drive still seeks, and knows the cartridge as not referenced.
    pub fn reference<T: Tape>(&mut self, unit: &mut Unit<T>) -> Result<(), TapeFailed>
        requires ready { IsReady T.means self.old unit.old }
        requires format { is_format unit.old.drive.deck.mode ≡ true }
        requires stopped { is_stopped unit.old.drive.deck.motion ≡ true }
        ensures did { Does T.means unit.old.tape unit.new.tape (SetReferenced ∷ []) result }
        ensures marks { OnOk result (unit.new.drive.deck.cartridge
            ≡ referenced_as true unit.old.drive.deck.cartridge) }
        ensures unmarked { OnErr result (unit.new.drive.deck.cartridge
            ≡ referenced_as false unit.old.drive.deck.cartridge) }
        ensures place { OnOk result (StandsAt 0 0 unit.new.drive.deck) }
        ensures mode { unit.new.drive.deck.mode ≡ unit.old.drive.deck.mode }
        ensures agrees { OnOk result
            (AgreesWithTape T.means unit.old → AgreesWithTape T.means unit.new) }
        ensures size { T.means.size unit.new.tape ≡ T.means.size unit.old.tape }
        ensures fits { Fits T.means self.new unit.new }
        ensures rest { OnOk result (IsAtRest unit.new.drive) }
    {
        self.send(unit, Command::WriteReference.number())?;
        self.wait(unit);
        Ok(())
    }
}

fn entry_of(mode: Mode) -> Command
    ensures { result ≡ entry_of mode }
{
    match mode {
        Mode::Primary => Command::EnterPrimary,
        Mode::Format => Command::EnterFormat,
        Mode::Verify => Command::EnterVerify,
    }
}
