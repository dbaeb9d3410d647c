//! What a person does to the cartridge, past the drive.

ghost use Rattle.std.specs.Prelude.{◌≡◌, [], ◌∷◌, None, IfOk, IsSome, OnOk, OnErr, false};
ghost use Rattle.qic_base.specs.Cartridge.{IsLength};
ghost use Rattle.qic_base.specs.Step.{Renew, SetProtected};
ghost use Rattle.qic_base.specs.TapeCalls.{Does};
ghost use Rattle.drive_spec.specs.Terms.{power_on_deck};
ghost use Rattle.drive_spec.specs.Record.{power_on};
ghost use Rattle.drive_states.specs.AnyDrive.{drive_of};
ghost use Rattle.drive_states.specs.Cable.{unit_of, record_of};
ghost use Rattle.drive_states.specs.Hand.{Replaces, Upgrades, IsUpgraded, FailsToUpgrade};
ghost use Rattle.drive_states.specs.Unit.{IsInserted, KnowsAll};

use crate::any_drive::AnyDrive;
use crate::deck::power_on_deck;
use crate::dialogue::Dialogue;
use crate::drive::Drive;
use core::mem::replace_with;
use drive_spec::UnderWay;
use qic_base::{Tape, TapeFailed};

/// A drive that knows of no cartridge.
pub fn empty<T: Tape>(tape: T) -> AnyDrive<T>
    ensures { drive_of result ≡ record { deck = power_on_deck None; tape = tape } }
{
    AnyDrive::LoadPoint(Drive::of(power_on_deck(None), tape))
}

/// The drive learns what its cartridge is.
fn look<T: Tape>(mut tape: T) -> (AnyDrive<T>, Result<(), TapeFailed>)
    ensures did { Does T.means tape (drive_of result.0).tape [] result.1 }
    ensures learnt { OnOk result.1 (KnowsAll T.means (drive_of result.0)) }
    ensures failed { OnErr result.1 ((drive_of result.0).deck ≡ power_on_deck None) }
    ensures same_size { OnErr result.1 (T.means.size (drive_of result.0).tape ≡ T.means.size tape) }
{
    match tape.info() {
        Ok(cartridge) => (
            AnyDrive::LoadPoint(Drive::of(power_on_deck(cartridge), tape)),
            Ok(()),
        ),
        Err(failed) => (empty(tape), Err(failed)),
    }
}

fn inserted<T: Tape>(drive: AnyDrive<T>, _: ()) -> (AnyDrive<T>, Result<(), TapeFailed>)
    ensures did { Does T.means (drive_of drive).tape (drive_of result.0).tape [] result.1 }
    ensures learnt { OnOk result.1 (KnowsAll T.means (drive_of result.0)) }
    ensures failed { OnErr result.1 ((drive_of result.0).deck ≡ power_on_deck None) }
    ensures same_size { OnErr result.1
        (T.means.size (drive_of result.0).tape ≡ T.means.size (drive_of drive).tape) }
{
    look(drive.into_tape())
}

fn renewed<T: Tape>(
    drive: AnyDrive<T>,
    segments_per_track: u16,
) -> (AnyDrive<T>, Result<(), TapeFailed>)
    requires { IsLength segments_per_track }
    ensures did { Does T.means (drive_of drive).tape (drive_of result.0).tape
        (Renew segments_per_track ∷ []) result.1 }
    ensures learnt { OnOk result.1 (KnowsAll T.means (drive_of result.0)) }
    ensures failed { OnErr result.1 ((drive_of result.0).deck ≡ power_on_deck None) }
{
    let mut tape = drive.into_tape();
    match tape.renew(segments_per_track) {
        Ok(()) => look(tape),
        Err(failed) => (empty(tape), Err(failed)),
    }
}

fn protected<T: Tape>(drive: AnyDrive<T>, on: bool) -> (AnyDrive<T>, Result<(), TapeFailed>)
    requires { IsSome (T.means.size (drive_of drive).tape) }
    ensures did { Does T.means (drive_of drive).tape (drive_of result.0).tape (SetProtected on ∷ []) result.1 }
    ensures learnt { OnOk result.1 (KnowsAll T.means (drive_of result.0)) }
    ensures failed { OnErr result.1 ((drive_of result.0).deck ≡ power_on_deck None) }
{
    let mut tape = drive.into_tape();
    match tape.set_protected(on) {
        Ok(()) => look(tape),
        Err(failed) => (empty(tape), Err(failed)),
    }
}

fn upgraded<T: Tape>(drive: AnyDrive<T>, _: ()) -> (AnyDrive<T>, Result<u8, TapeFailed>)
    requires { IsSome (T.means.size (drive_of drive).tape) }
    ensures kept { OnOk result.1 ((drive_of result.0).deck ≡ (drive_of drive).deck) }
    ensures tape { IfOk result.1 (λ version.
        IsUpgraded T.means (drive_of drive).tape (drive_of result.0).tape version) }
    ensures unknown { OnErr result.1 ((drive_of result.0).deck ≡ power_on_deck None) }
    ensures failed { OnErr result.1
        (FailsToUpgrade T.means (drive_of drive).tape (drive_of result.0).tape) }
{
    let (deck, mut tape) = drive.into_parts();
    match tape.upgrade() {
        Ok(version) => (AnyDrive::of(deck, tape), Ok(version)),
        Err(TapeFailed) => (empty(tape), Err(TapeFailed)),
    }
}

impl<T: Tape> Dialogue<T> {
    /// Takes the cartridge out and puts it in again. After a failure the drive knows of none.
    pub fn insert(&mut self) -> Result<(), TapeFailed>
        ensures did { Does T.means (unit_of self.old).tape (unit_of self.new).tape [] result }
        ensures inserted { OnOk result (IsInserted T.means (unit_of self.new)) }
        ensures failed { OnErr result (record_of self.new ≡ power_on None) }
        ensures same_size { OnErr result
            (T.means.size (unit_of self.new).tape ≡ T.means.size (unit_of self.old).tape) }
    {
        self.rest();
        replace_with(&mut self.drive, (), inserted)
    }

    /// The end of the cable as after power-on.
    fn rest(&mut self)
        ensures drive { self.new.drive ≡ self.old.drive }
        ensures train { self.new.train ≡ 0 }
        ensures line { self.new.line ≡ false }
        ensures under_way { self.new.under_way ≡ UnderWay.Nothing }
    {
        self.train = 0;
        self.line = false;
        self.under_way = UnderWay::Nothing;
    }

    /// Puts in a new cartridge, never formatted, with neither mark, as `insert` does.
    pub fn load_blank(&mut self, segments_per_track: u16) -> Result<(), TapeFailed>
        requires { IsLength segments_per_track }
        ensures { Replaces T.means (unit_of self.old) (unit_of self.new)
            (Renew segments_per_track) result }
    {
        self.rest();
        replace_with(&mut self.drive, segments_per_track, renewed)
    }

    /// Sets or clears the write protect mark of a cartridge that the drive knows of, and puts it in again.
    pub fn protect(&mut self, on: bool) -> Result<(), TapeFailed>
        requires { IsSome (T.means.size (unit_of self.old).tape) }
        ensures { Replaces T.means (unit_of self.old) (unit_of self.new) (SetProtected on) result }
    {
        self.rest();
        replace_with(&mut self.drive, on, protected)
    }

    /// Has the cartridge that the drive knows of kept in the newest layout.
    pub fn upgrade(&mut self) -> Result<u8, TapeFailed>
        requires { IsSome (T.means.size (unit_of self.old).tape) }
        ensures { Upgrades T.means (unit_of self.old) (unit_of self.new) result }
    {
        match replace_with(&mut self.drive, (), upgraded) {
            Ok(version) => Ok(version),
            Err(TapeFailed) => {
                self.rest();
                Err(TapeFailed)
            }
        }
    }
}
