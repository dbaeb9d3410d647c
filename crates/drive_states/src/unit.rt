//! The drive as its cable and a person's hand reach it.

ghost use Rattle.std.specs.Prelude.{◌≡◌, ℕ, [], ◌∷◌, None, ◌≢◌, OnErr, OnOk, IfOk, IfNone, IfSome};
ghost use Rattle.qic_base.specs.Cartridge.{IsLength, IsPlace};
ghost use Rattle.qic_base.specs.Step.{Renew, SetProtected, SetReferenced};
ghost use Rattle.qic_base.specs.TapeCalls.{Does, IsPlaceOf};
ghost use Rattle.qic117_commands.specs.Views.{is_primary};
ghost use Rattle.drive_spec.specs.Terms.{is_protected};
ghost use Rattle.drive_spec.specs.Record.{power_on};
ghost use Rattle.drive_spec.specs.Row.{after_gap, moved_on};
ghost use Rattle.drive_spec.specs.Steps.{gap_steps};
ghost use Rattle.drive_states.specs.Hand.{Replaces, Wears, Spoils, Upgrades, IsPlaced, IsNotReached, IsCarriedOut};
ghost use Rattle.drive_states.specs.Reach.{reads_in, Reaches, ReachesNone, IsFormatting, Finds, Writes, Formats};
ghost use Rattle.drive_states.specs.Reach.{FindsSectors, WritesSectors};
ghost use Rattle.drive_states.specs.Unit.{stepped, IsInserted, IsSoundUnit, held};
ghost use Rattle.drive_states.specs.Unreferenced.{without_reference};

use crate::dialogue::Dialogue;
use crate::fault::{FdcFault, HandFault};
use crate::hand::empty;
use drive_spec::UnderWay;
use qic_base::{LostSet, SECTORS, Sector, SectorsRead, TRACKS, Tape, TapeFailed};
use std::marker::Model;
use tape_geometry::FloppyAddr;

/// A drive with its tape: step pulses and gaps, the track-0 line, sector calls, and what a person does to the
/// cartridge.
#[derive(Drop)]
pub struct Unit<T: Tape> {
    dialogue: Dialogue<T>,
}

impl<T: Tape> Model for Unit<T> {
    ghost use Rattle.drive_states.specs.Unit.{UnitView, IsSoundUnit};

    ghost Value = { UnitView T };

    ghost use Rattle.drive_states.specs.Cable.{unit_of};

    ghost view = { λ u. unit_of u.dialogue };

    ghost invariant = { λ u. IsSoundUnit T.means (unit_of u.dialogue) };
}

impl<T: Tape> Unit<T> {
    /// A drive that knows of no cartridge until `insert`.
    pub fn new(tape: T) -> Unit<T>
        ensures { result ≡ record { drive = power_on None; tape = tape } }
    {
        Unit {
            dialogue: Dialogue {
                drive: empty(tape),
                train: 0,
                line: false,
                under_way: UnderWay::Nothing,
            },
        }
    }

    /// The tape.
    pub fn into_tape(self) -> T
        ensures { result ≡ self.tape }
    {
        let Unit { dialogue } = self;
        dialogue.drive.into_tape()
    }

    /// Takes the cartridge out and puts it in again. After a failure the drive knows of none.
    pub fn insert(&mut self) -> Result<(), TapeFailed>
        ensures did { Does T.means self.old.tape self.new.tape [] result }
        ensures inserted { OnOk result (IsInserted T.means self.new) }
        ensures failed { OnErr result (self.new.drive ≡ power_on None) }
        ensures same_size { OnErr result (T.means.size self.new.tape ≡ T.means.size self.old.tape) }
    {
        let answer = self.dialogue.insert();
        self.dialogue.drive.reveal();
        answer
    }

    /// One step pulse more; the count stops at 255.
    pub fn step(&mut self)
        ensures row { self.new ≡ record self.old { drive = stepped self.old.drive } }
        ensures sound { IsSoundUnit T.means self.new }
    {
        self.dialogue.train = self.dialogue.train.saturating_add(1);
    }

    /// Ends the train of pulses and carries out its row. Each refusal of the drive is a latched error code; the Err is
    /// a tape that failed to write the reference bursts.
    pub fn gap(&mut self) -> Result<(), TapeFailed>
        ensures row { OnOk result (self.new.drive ≡ after_gap self.old.drive) }
        ensures failed { OnErr result ((gap_steps self.old.drive ≡ SetReferenced ∷ [])
            × (self.new.drive ≡ without_reference (after_gap self.old.drive))) }
        ensures did { Does T.means self.old.tape self.new.tape (gap_steps self.old.drive) result }
        ensures untouched { gap_steps self.old.drive ≡ [] → self.new.tape ≡ self.old.tape }
        ensures size { T.means.size self.new.tape ≡ T.means.size self.old.tape }
        ensures sound { IsSoundUnit T.means self.new }
    {
        let answer = self.dialogue.gap();
        self.dialogue.drive.reveal();
        answer
    }

    /// The level that the last train left on the track-0 line.
    pub fn line(&self) -> bool
        ensures level { result ≡ self.now.drive.line }
        ensures sound { IsSoundUnit T.means self.now }
    {
        self.dialogue.line
    }

    /// Reads the sector at an address; where it answers Ok or Unreadable, the head has passed it. `into` is unchanged
    /// unless the answer is Ok.
    pub fn read_sector(
        &mut self,
        addr: FloppyAddr,
        into: &mut Sector,
    ) -> Result<Result<(), FdcFault>, TapeFailed>
        // Where the head can reach no sector with that address, nothing is done.
        ensures unreached { ReachesNone reads_in self.old.drive.deck addr →
            (result ≡ Ok (Err FdcFault.NoAddress)) × (self.new ≡ self.old) × (into.new ≡ into.old) }
        // Where it can reach one, the answer is what that sector is.
        ensures reached { (segment index : ℕ) → Reaches reads_in self.old.drive.deck addr segment index →
            Finds T.means (held self.old) (held self.new) segment index into.old into.new result }
        ensures cable { self.new.drive ≡ record self.old.drive { deck = self.new.drive.deck } }
        ensures size { T.means.size self.new.tape ≡ T.means.size self.old.tape }
        ensures sound { IsSoundUnit T.means self.new }
    {
        let answer = self.dialogue.drive.read_sector(addr, into);
        self.dialogue.drive.reveal();
        answer
    }

    /// Writes the sector at an address; where it answers Ok, the head has passed it.
    pub fn write_sector(
        &mut self,
        addr: FloppyAddr,
        from: &Sector,
    ) -> Result<Result<(), FdcFault>, TapeFailed>
        ensures unreached { ReachesNone is_primary self.old.drive.deck addr →
            (result ≡ Ok (Err FdcFault.NoAddress)) × (self.new ≡ self.old) }
        ensures reached { (segment index : ℕ) → Reaches is_primary self.old.drive.deck addr segment index →
            Writes T.means (held self.old) (held self.new) segment index from.now
            (is_protected self.old.drive.deck) result }
        ensures cable { self.new.drive ≡ record self.old.drive { deck = self.new.drive.deck } }
        ensures size { T.means.size self.new.tape ≡ T.means.size self.old.tape }
        ensures sound { IsSoundUnit T.means self.new }
    {
        let answer = self.dialogue.drive.write_sector(addr, from);
        self.dialogue.drive.reveal();
        answer
    }

    /// Reads the wanted sectors of a segment, by the address of the first, each into its entry of `into`; bit i of
    /// `wanted` stands for sector i, and none of them is below the first. Where it answers Ok, the head has passed those
    /// that have an address. An entry is unchanged unless its sector is good.
    pub fn read_sectors(
        &mut self,
        addr: FloppyAddr,
        wanted: LostSet,
        into: &mut [Sector; 32],
    ) -> Result<Result<SectorsRead, FdcFault>, TapeFailed>
        // Where the head can reach no sector with that address, nothing is done.
        ensures unreached { ReachesNone reads_in self.old.drive.deck addr →
            (result ≡ Ok (Err FdcFault.NoAddress)) × (self.new ≡ self.old) × (into.new ≡ into.old) }
        // Where it can reach one, the answer is what the wanted sectors are.
        ensures reached { (segment index : ℕ) → Reaches reads_in self.old.drive.deck addr segment index →
            FindsSectors T.means (held self.old) (held self.new) segment index wanted into.old into.new result }
        ensures cable { self.new.drive ≡ record self.old.drive { deck = self.new.drive.deck } }
        ensures size { T.means.size self.new.tape ≡ T.means.size self.old.tape }
        ensures sound { IsSoundUnit T.means self.new }
    {
        let answer = self.dialogue.drive.read_sectors(addr, wanted, into);
        self.dialogue.drive.reveal();
        answer
    }

    /// Writes sectors of a segment, by the address of the first, each with its entry of `from`; bit i of `written` stands
    /// for sector i, and none of them is below the first. Answers those that were never formatted and took no write;
    /// where it answers Ok, the head has passed the others.
    pub fn write_sectors(
        &mut self,
        addr: FloppyAddr,
        written: LostSet,
        from: &[Sector; 32],
    ) -> Result<Result<LostSet, FdcFault>, TapeFailed>
        ensures unreached { ReachesNone is_primary self.old.drive.deck addr →
            (result ≡ Ok (Err FdcFault.NoAddress)) × (self.new ≡ self.old) }
        ensures reached { (segment index : ℕ) → Reaches is_primary self.old.drive.deck addr segment index →
            WritesSectors T.means (held self.old) (held self.new) segment index written from.now
            (is_protected self.old.drive.deck) result }
        ensures cable { self.new.drive ≡ record self.old.drive { deck = self.new.drive.deck } }
        ensures size { T.means.size self.new.tape ≡ T.means.size self.old.tape }
        ensures sound { IsSoundUnit T.means self.new }
    {
        let answer = self.dialogue.drive.write_sectors(addr, written, from);
        self.dialogue.drive.reveal();
        answer
    }

    /// Formats the segment under the head, and the head moves on.
    pub fn format_segment(&mut self) -> Result<Result<(), FdcFault>, TapeFailed>
        ensures unreached { ¬ (IsFormatting self.old.drive.deck) →
            (result ≡ Ok (Err FdcFault.NoAddress)) × (self.new ≡ self.old) }
        ensures reached { IsFormatting self.old.drive.deck →
            Formats T.means (held self.old) (held self.new) result }
        ensures moved { result ≡ Ok (Ok tt) → self.new.drive ≡ moved_on self.old.drive }
        ensures stayed { result ≢ Ok (Ok tt) → self.new.drive ≡ self.old.drive }
        ensures size { T.means.size self.new.tape ≡ T.means.size self.old.tape }
        ensures sound { IsSoundUnit T.means self.new }
    {
        let answer = self.dialogue.format_segment();
        self.dialogue.drive.reveal();
        answer
    }

    /// Puts in a new cartridge, never formatted, with neither mark, as `insert` does.
    pub fn load_blank(&mut self, segments_per_track: u16) -> Result<(), TapeFailed>
        requires { IsLength segments_per_track }
        ensures { Replaces T.means self.old self.new (Renew segments_per_track) result }
    {
        let answer = self.dialogue.load_blank(segments_per_track);
        self.dialogue.drive.reveal();
        answer
    }

    /// Sets or clears the write protect mark, and puts the cartridge in again as `insert` does.
    pub fn protect(&mut self, on: bool) -> Result<Result<(), HandFault>, TapeFailed>
        ensures absent { IfNone self.old.drive.deck.cartridge
            ((result ≡ Ok (Err HandFault.NoCartridge)) × (self.new ≡ self.old)) }
        ensures present { IfSome self.old.drive.deck.cartridge (λ info.
            IsCarriedOut (Replaces T.means self.old self.new (SetProtected on)) result) }
    {
        if self.dialogue.drive.deck().cartridge.is_none() {
            return Ok(Err(HandFault::NoCartridge));
        }
        let answer = self.dialogue.protect(on);
        self.dialogue.drive.reveal();
        Ok(Ok(answer?))
    }

    /// Makes a readable sector unreadable until it is written again.
    pub fn wear(&mut self, segment: u32, sector: u32) -> Result<Result<(), HandFault>, TapeFailed>
        ensures absent { IfNone self.old.drive.deck.cartridge (result ≡ Ok (Err HandFault.NoCartridge)) }
        ensures misplaced { IfSome self.old.drive.deck.cartridge (λ info.
            ¬ (IsPlace info.segments_per_track segment sector) → result ≡ Ok (Err HandFault.BadPlace)) }
        ensures placed { IfSome self.old.drive.deck.cartridge (λ info.
            IsPlace info.segments_per_track segment sector →
            Wears T.means self.old self.new segment sector result) }
        ensures untouched { IsNotReached result → self.new ≡ self.old }
        ensures drive { self.new.drive ≡ self.old.drive }
        ensures size { T.means.size self.new.tape ≡ T.means.size self.old.tape }
    {
        let sector = match self.place(segment, sector) {
            Ok(sector) => sector,
            Err(fault) => return Ok(Err(fault)),
        };
        match self.dialogue.drive.wear(segment, sector) {
            Ok(()) => Ok(Ok(())),
            Err(failed) => Err(failed),
        }
    }

    /// Makes a defect of a sector that was never formatted.
    pub fn spoil(&mut self, segment: u32, sector: u32) -> Result<Result<(), HandFault>, TapeFailed>
        ensures absent { IfNone self.old.drive.deck.cartridge (result ≡ Ok (Err HandFault.NoCartridge)) }
        ensures misplaced { IfSome self.old.drive.deck.cartridge (λ info.
            ¬ (IsPlace info.segments_per_track segment sector) → result ≡ Ok (Err HandFault.BadPlace)) }
        ensures placed { IfSome self.old.drive.deck.cartridge (λ info.
            IsPlace info.segments_per_track segment sector →
            Spoils T.means self.old self.new segment sector result) }
        ensures untouched { IsNotReached result → self.new ≡ self.old }
        ensures drive { self.new.drive ≡ self.old.drive }
        ensures size { T.means.size self.new.tape ≡ T.means.size self.old.tape }
    {
        let sector = match self.place(segment, sector) {
            Ok(sector) => sector,
            Err(fault) => return Ok(Err(fault)),
        };
        match self.dialogue.drive.spoil(segment, sector) {
            Ok(true) => Ok(Ok(())),
            Ok(false) => Ok(Err(HandFault::NotBlank)),
            Err(failed) => Err(failed),
        }
    }

    /// Has the cartridge kept in the newest layout. Answers the version of the layout before, 1 or 2. After a failure the
    /// drive knows of none.
    pub fn upgrade(&mut self) -> Result<Result<u8, HandFault>, TapeFailed>
        ensures absent { IfNone self.old.drive.deck.cartridge
            ((result ≡ Ok (Err HandFault.NoCartridge)) × (self.new ≡ self.old)) }
        ensures present { IfSome self.old.drive.deck.cartridge (λ info.
            IsCarriedOut (Upgrades T.means self.old self.new) result) }
    {
        if self.dialogue.drive.deck().cartridge.is_none() {
            return Ok(Err(HandFault::NoCartridge));
        }
        let answer = self.dialogue.upgrade();
        self.dialogue.drive.reveal();
        Ok(Ok(answer?))
    }

    /// The index of a sector that the cartridge has.
    fn place(&self, segment: u32, sector: u32) -> Result<u8, HandFault>
        ensures placed { IsPlaced self.now.drive.deck.cartridge segment sector result }
        ensures here { IfOk result (λ index. IsPlaceOf T.means self.now.tape segment index) }
    {
        let Some(info) = self.dialogue.drive.deck().cartridge else {
            return Err(HandFault::NoCartridge);
        };
        if segment >= TRACKS * u32::from(info.segments_per_track) || sector >= SECTORS as u32 {
            return Err(HandFault::BadPlace);
        }
        Ok(sector as u8)
    }
}
