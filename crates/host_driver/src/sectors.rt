//! Sectors under the head, and what a person does to one.

ghost use Rattle.std.specs.Prelude.{◌≡◌, ◌≢◌, ◌<◌, ◌+◌, [], ◌∷◌, true, false, IfOk, OnOk, OnErr, MatchResult};
ghost use Rattle.qic_base.specs.Cartridge.{IsPlace, view_at};
ghost use Rattle.qic_base.specs.Step.{write_sector, WriteSectors, FormatSegment};
ghost use Rattle.qic_base.specs.TapeCalls.{Does, Tells, Reads, write_answer, ReadsSectors, KeepsOthers, chosen, AreBlank};
ghost use Rattle.drive_spec.specs.Deck.{segments_per_track};
ghost use Rattle.drive_spec.specs.Terms.{run_on};
ghost use Rattle.drive_states.specs.Hand.{Wears};
ghost use Rattle.drive_states.specs.Reach.{reads_in, IsUnder, IsFormatting, Finds, Writes, segment_of};
ghost use Rattle.drive_states.specs.Reach.{FindsSectors, WritesSectors, passed_all};
ghost use Rattle.drive_states.specs.Unit.{IsSoundUnit, held};
ghost use Rattle.host_driver.specs.Calls.{IsReady, MayWrite, Keeps};
ghost use Rattle.host_driver.specs.Place.{RunsOn};
ghost use Rattle.host_driver.specs.Sectors.{deck_after_read, deck_after_write};

use crate::host::Host;
use drive_states::effects::{passed, passed_all, run_on};
use drive_states::{FdcFault, HandFault, Unit};
use qic_base::{LostSet, Sector, SectorRead, SectorWrite, SectorsRead, Tape, TapeFailed};

impl Host {
    /// Reads a sector of the segment in which the tape streams, one that the head has yet to reach. `into` is unchanged
    /// unless the answer is `Good`.
    pub fn read_sector<T: Tape>(
        &mut self,
        unit: &mut Unit<T>,
        segment: u32,
        sector: u8,
        into: &mut Sector,
    ) -> Result<SectorRead, TapeFailed>
        requires ready { IsReady T.means self.old unit.old }
        requires mode { reads_in unit.old.drive.deck.mode ≡ true }
        requires under { IsUnder unit.old.drive.deck segment sector }
        requires sector { sector < 32 }
        ensures did { Does T.means unit.old.tape unit.new.tape [] result }
        ensures view { IfOk result (λ answer. Tells T.means unit.old.tape (λ c.
            Reads (view_at c segment sector) into.old into.new answer)) }
        ensures unchanged { result ≢ Ok SectorRead.Good → into.new ≡ into.old }
        ensures head { MatchResult result
            (λ answer. unit.new.drive.deck ≡ deck_after_read answer sector unit.old.drive.deck)
            (λ fault. unit.new.drive.deck ≡ unit.old.drive.deck) }
        ensures under { IsUnder unit.new.drive.deck segment (sector + 1) }
        ensures keeps { Keeps T.means self.new unit.old unit.new }
    {
        let answer = match self.read_under(unit, segment, sector, into)? {
            Ok(()) => SectorRead::Good,
            Err(FdcFault::Unreadable) => SectorRead::Lost,
            Err(FdcFault::NoAddress) => return Ok(SectorRead::Blank),
            Err(FdcFault::Protected) => unreachable!("only a write minds the protect mark"),
        };
        self.deck = passed(self.deck, sector);
        Ok(answer)
    }

    /// Has the drive read a sector that its head has yet to reach.
    fn read_under<T: Tape>(
        &self,
        unit: &mut Unit<T>,
        segment: u32,
        sector: u8,
        into: &mut Sector,
    ) -> Result<Result<(), FdcFault>, TapeFailed>
        requires ready { IsReady T.means self.now unit.old }
        requires mode { reads_in unit.old.drive.deck.mode ≡ true }
        requires under { IsUnder unit.old.drive.deck segment sector }
        requires sector { sector < 32 }
        ensures found { Finds T.means (held unit.old) (held unit.new) segment sector into.old into.new result }
        ensures cable { unit.new.drive ≡ record unit.old.drive { deck = unit.new.drive.deck } }
        ensures size { T.means.size unit.new.tape ≡ T.means.size unit.old.tape }
        ensures sound { IsSoundUnit T.means unit.new }
    {
        unit.read_sector(self.geometry.address(segment, sector), into)
    }

    /// Writes a sector of the segment in which the tape streams, one that the head has yet to reach, in Primary mode.
    /// The cartridge is not protected.
    pub fn write_sector<T: Tape>(
        &mut self,
        unit: &mut Unit<T>,
        segment: u32,
        sector: u8,
        from: &Sector,
    ) -> Result<SectorWrite, TapeFailed>
        requires ready { IsReady T.means self.old unit.old }
        requires writable { MayWrite unit.old.drive.deck }
        requires under { IsUnder unit.old.drive.deck segment sector }
        requires sector { sector < 32 }
        ensures did { Does T.means unit.old.tape unit.new.tape
            (write_sector segment sector from.now ∷ []) result }
        ensures answer { IfOk result (λ answer. Tells T.means unit.old.tape (λ c.
            answer ≡ write_answer (view_at c segment sector))) }
        ensures head { MatchResult result
            (λ answer. unit.new.drive.deck ≡ deck_after_write answer sector unit.old.drive.deck)
            (λ fault. unit.new.drive.deck ≡ unit.old.drive.deck) }
        ensures under { IsUnder unit.new.drive.deck segment (sector + 1) }
        ensures keeps { Keeps T.means self.new unit.old unit.new }
    {
        match self.write_under(unit, segment, sector, from)? {
            Ok(()) => {
                self.deck = passed(self.deck, sector);
                Ok(SectorWrite::Taken)
            }
            Err(FdcFault::NoAddress) => Ok(SectorWrite::Blank),
            Err(FdcFault::Protected | FdcFault::Unreadable) => {
                unreachable!("the cartridge may be written, and a write reads nothing")
            }
        }
    }

    /// Has the drive write a sector that its head has yet to reach.
    fn write_under<T: Tape>(
        &self,
        unit: &mut Unit<T>,
        segment: u32,
        sector: u8,
        from: &Sector,
    ) -> Result<Result<(), FdcFault>, TapeFailed>
        requires ready { IsReady T.means self.now unit.old }
        requires writable { MayWrite unit.old.drive.deck }
        requires under { IsUnder unit.old.drive.deck segment sector }
        requires sector { sector < 32 }
        ensures written { Writes T.means (held unit.old) (held unit.new) segment sector from.now false result }
        ensures cable { unit.new.drive ≡ record unit.old.drive { deck = unit.new.drive.deck } }
        ensures size { T.means.size unit.new.tape ≡ T.means.size unit.old.tape }
        ensures sound { IsSoundUnit T.means unit.new }
    {
        unit.write_sector(self.geometry.address(segment, sector), from)
    }

    /// Reads the wanted sectors of the segment in which the tape streams, of which the head has yet to reach sector 0, each
    /// into its entry of `into`; bit i of `wanted` stands for sector i. An entry is unchanged unless its sector is good,
    /// and all of them are where the tape fails.
    pub fn read_sectors<T: Tape>(
        &mut self,
        unit: &mut Unit<T>,
        segment: u32,
        wanted: LostSet,
        into: &mut [Sector; 32],
    ) -> Result<SectorsRead, TapeFailed>
        requires ready { IsReady T.means self.old unit.old }
        requires mode { reads_in unit.old.drive.deck.mode ≡ true }
        requires under { IsUnder unit.old.drive.deck segment 0 }
        ensures did { Does T.means unit.old.tape unit.new.tape [] result }
        ensures reads { IfOk result (λ read. Tells T.means unit.old.tape (λ c.
            ReadsSectors wanted read.good read.blank (view_at c segment) into.old into.new)) }
        ensures kept { IfOk result (λ read. KeepsOthers read.good into.old into.new) }
        ensures unchanged { OnErr result (into.new ≡ into.old) }
        ensures head { MatchResult result
            (λ read. unit.new.drive.deck ≡ passed_all unit.old.drive.deck wanted read.blank)
            (λ fault. unit.new.drive.deck ≡ unit.old.drive.deck) }
        ensures under { IsUnder unit.new.drive.deck segment 32 }
        ensures keeps { Keeps T.means self.new unit.old unit.new }
    {
        match self.read_all_under(unit, segment, wanted, into)? {
            Ok(read) => {
                self.deck = passed_all(self.deck, wanted, read.blank);
                Ok(read)
            }
            Err(_) => { unreachable!("no sector is below the first, and the answer tells of each") }
        }
    }

    /// Has the drive read sectors of a segment of which its head has yet to reach sector 0.
    fn read_all_under<T: Tape>(
        &self,
        unit: &mut Unit<T>,
        segment: u32,
        wanted: LostSet,
        into: &mut [Sector; 32],
    ) -> Result<Result<SectorsRead, FdcFault>, TapeFailed>
        requires ready { IsReady T.means self.now unit.old }
        requires mode { reads_in unit.old.drive.deck.mode ≡ true }
        requires under { IsUnder unit.old.drive.deck segment 0 }
        ensures found { FindsSectors T.means (held unit.old) (held unit.new) segment 0 wanted into.old into.new result }
        ensures cable { unit.new.drive ≡ record unit.old.drive { deck = unit.new.drive.deck } }
        ensures size { T.means.size unit.new.tape ≡ T.means.size unit.old.tape }
        ensures sound { IsSoundUnit T.means unit.new }
    {
        unit.read_sectors(self.geometry.address(segment, 0), wanted, into)
    }

    /// Writes sectors of the segment in which the tape streams, of which the head has yet to reach sector 0, each with its
    /// entry of `from`; bit i of `written` stands for sector i. Answers those that were never formatted and took no write.
    /// In Primary mode, and the cartridge is not protected.
    pub fn write_sectors<T: Tape>(
        &mut self,
        unit: &mut Unit<T>,
        segment: u32,
        written: LostSet,
        from: &[Sector; 32],
    ) -> Result<LostSet, TapeFailed>
        requires ready { IsReady T.means self.old unit.old }
        requires writable { MayWrite unit.old.drive.deck }
        requires under { IsUnder unit.old.drive.deck segment 0 }
        ensures did { Does T.means unit.old.tape unit.new.tape
            (WriteSectors segment (chosen written from.now) ∷ []) result }
        ensures answer { IfOk result (λ blank. Tells T.means unit.old.tape (λ c.
            AreBlank written blank (view_at c segment))) }
        ensures head { MatchResult result
            (λ blank. unit.new.drive.deck ≡ passed_all unit.old.drive.deck written blank)
            (λ fault. unit.new.drive.deck ≡ unit.old.drive.deck) }
        ensures under { IsUnder unit.new.drive.deck segment 32 }
        ensures keeps { Keeps T.means self.new unit.old unit.new }
    {
        match self.write_all_under(unit, segment, written, from)? {
            Ok(blank) => {
                self.deck = passed_all(self.deck, written, blank);
                Ok(blank)
            }
            Err(_) => {
                unreachable!("no sector is below the first, and the cartridge may be written")
            }
        }
    }

    /// Has the drive write sectors of a segment of which its head has yet to reach sector 0.
    fn write_all_under<T: Tape>(
        &self,
        unit: &mut Unit<T>,
        segment: u32,
        written: LostSet,
        from: &[Sector; 32],
    ) -> Result<Result<LostSet, FdcFault>, TapeFailed>
        requires ready { IsReady T.means self.now unit.old }
        requires writable { MayWrite unit.old.drive.deck }
        requires under { IsUnder unit.old.drive.deck segment 0 }
        ensures wrote { WritesSectors T.means (held unit.old) (held unit.new) segment 0 written from.now false result }
        ensures cable { unit.new.drive ≡ record unit.old.drive { deck = unit.new.drive.deck } }
        ensures size { T.means.size unit.new.tape ≡ T.means.size unit.old.tape }
        ensures sound { IsSoundUnit T.means unit.new }
    {
        unit.write_sectors(self.geometry.address(segment, 0), written, from)
    }

    /// Formats the segment in which the tape streams, in Format mode, and the tape runs on.
    pub fn format_here<T: Tape>(&mut self, unit: &mut Unit<T>) -> Result<(), TapeFailed>
        requires ready { IsReady T.means self.old unit.old }
        requires formatting { IsFormatting unit.old.drive.deck }
        ensures did { Does T.means unit.old.tape unit.new.tape
            (FormatSegment (segment_of unit.old.drive.deck) ∷ []) result }
        ensures deck { OnOk result (unit.new.drive.deck ≡ run_on unit.old.drive.deck) }
        ensures next { OnOk result (RunsOn unit.old.drive.deck unit.new.drive.deck) }
        ensures failed { OnErr result (unit.new.drive.deck ≡ unit.old.drive.deck) }
        ensures keeps { Keeps T.means self.new unit.old unit.new }
    {
        match unit.format_segment()? {
            Ok(()) => {
                self.deck = run_on(self.deck);
                Ok(())
            }
            Err(_) => { unreachable!("the drive is in Format mode, and its tape streams") }
        }
    }

    /// Makes a readable sector unreadable until it is written again, by a person's hand.
    pub fn wear<T: Tape>(
        &mut self,
        unit: &mut Unit<T>,
        segment: u32,
        sector: u32,
    ) -> Result<Result<(), HandFault>, TapeFailed>
        requires ready { IsReady T.means self.old unit.old }
        ensures misplaced { ¬ (IsPlace (segments_per_track unit.old.drive.deck) segment sector) →
            (result ≡ Ok (Err HandFault.BadPlace)) × (unit.new ≡ unit.old) }
        ensures placed { IsPlace (segments_per_track unit.old.drive.deck) segment sector →
            Wears T.means unit.old unit.new segment sector result }
        ensures drive { unit.new.drive ≡ unit.old.drive }
        ensures host { self.new ≡ self.old }
        ensures keeps { Keeps T.means self.new unit.old unit.new }
    {
        unit.wear(segment, sector)
    }
}
