//! The sector calls of the typed drive (this project's profile of QIC-117).

ghost use Rattle.std.specs.Prelude.{◌≡◌, ◌<◌, ◌↔◌, ℕ, List, true, false, IfNone, IfSome, IsTrue};
ghost use Rattle.qic117_commands.specs.Views.{is_primary};
ghost use Rattle.qic_base.specs.TapeCalls.{IsPlaceOf};
ghost use Rattle.drive_spec.specs.Deck.{is_streaming};
ghost use Rattle.drive_spec.specs.Terms.{is_protected};
ghost use Rattle.drive_states.specs.Reach.{reads_in, Reaches, ReachesNone, IsFormatting, Finds, Writes, Formats, HasAddressIn, HasNoAddressIn, StreamsTo, passed};
ghost use Rattle.drive_states.specs.Reach.{FindsSectors, WritesSectors, AreFrom, passed_all, refused_by};
ghost use Rattle.drive_states.specs.Sound.{IsSound};

use crate::deck::{is_protected, is_streaming, segment_of};
use crate::drive::Drive;
use crate::effects::{passed, passed_all, run_on};
use crate::fault::FdcFault;
use crate::states::{Format, Primary, Reads, State};
use drive_spec::{Deck, Motion};
use qic_base::{
    LostSet, SECTOR, Sector, SectorRead, SectorWrite, SectorsRead, Tape, TapeFailed, read_sector,
    write_sector,
};
use tape_geometry::{FloppyAddr, Geometry};

/// The segment and the sector index of an address that the head can still reach.
fn reach(deck: &Deck, addr: FloppyAddr) -> Option<(u32, u8)>
    requires { IsSound deck.now }
    ensures reached { IfSome result (λ place. HasAddressIn deck.now addr place.0 place.1) }
    ensures none { IfNone result (HasNoAddressIn deck.now addr) }
{
    let info = deck.cartridge?;
    let Motion::Streaming { next } = deck.motion else {
        return None;
    };
    let Ok(geometry) = Geometry::new(info.segments_per_track) else {
        return None;
    };
    let Some((segment, index)) = geometry.place(addr) else {
        return None;
    };
    (segment == segment_of(deck) && next <= index).then_some((segment, index))
}

/// Whether no sector below an index, 0 to 31, is in the set.
fn are_from(index: u8, set: LostSet) -> bool
    requires { index < 32 }
    ensures { IsTrue result ↔ AreFrom index set }
{
    set.mask() % (1 << index) == 0
}

impl<S: State, T: Tape> Drive<S, T> {
    /// The head has passed a sector of the segment under it.
    fn pass(&mut self, index: u8)
        requires fits { index < 32 }
        requires streams { StreamsTo self.old.deck.motion index }
        ensures { self.new ≡ record self.old { deck = passed self.old.deck index } }
    {
        self.deck = passed(self.deck, index);
    }

    /// The head has passed the asked sectors of the segment under it, but the blank ones.
    fn pass_all(&mut self, asked: LostSet, blank: LostSet)
        requires { is_streaming self.old.deck.motion ≡ true }
        ensures { self.new ≡ record self.old { deck = passed_all self.old.deck asked blank } }
    {
        self.deck = passed_all(self.deck, asked, blank);
    }
}

impl<M: Reads, T: Tape> Drive<M, T> {
    /// Reads the sector at an address; where it answers Ok or Unreadable, the head has passed it. `into` is unchanged
    /// unless the answer is Ok.
    pub fn read_sector(
        &mut self,
        addr: FloppyAddr,
        into: &mut Sector,
    ) -> Result<Result<(), FdcFault>, TapeFailed>
        ensures unreached { ReachesNone reads_in self.old.deck addr →
            (result ≡ Ok (Err FdcFault.NoAddress)) × (self.new ≡ self.old) × (into.new ≡ into.old) }
        ensures reached { (segment index : ℕ) → Reaches reads_in self.old.deck addr segment index →
            Finds T.means self.old self.new segment index into.old into.new result }
        ensures size { T.means.size self.new.tape ≡ T.means.size self.old.tape }
    {
        let Some((segment, index)) = reach(&self.deck, addr) else {
            return Ok(Err(FdcFault::NoAddress));
        };
        self.read_under(segment, index, into)
    }

    /// Reads a sector of the segment under the head, which has not passed it.
    fn read_under(
        &mut self,
        segment: u32,
        index: u8,
        into: &mut Sector,
    ) -> Result<Result<(), FdcFault>, TapeFailed>
        requires place { IsPlaceOf T.means self.old.tape segment index }
        requires fits { index < 32 }
        requires streams { StreamsTo self.old.deck.motion index }
        ensures found { Finds T.means self.old self.new segment index into.old into.new result }
        ensures size { T.means.size self.new.tape ≡ T.means.size self.old.tape }
    {
        match read_sector(&mut self.tape, segment, index, into) {
            Ok(SectorRead::Good) => {
                self.pass(index);
                Ok(Ok(()))
            }
            Ok(SectorRead::Lost) => {
                self.pass(index);
                Ok(Err(FdcFault::Unreadable))
            }
            Ok(SectorRead::Blank) => Ok(Err(FdcFault::NoAddress)),
            Err(TapeFailed) => Err(TapeFailed),
        }
    }

    /// Reads the wanted sectors of a segment, by the address of the first, each into its entry of `into`; where it
    /// answers Ok, the head has passed those that have an address. An entry is unchanged unless its sector is good.
    pub fn read_sectors(
        &mut self,
        addr: FloppyAddr,
        wanted: LostSet,
        into: &mut [Sector; 32],
    ) -> Result<Result<SectorsRead, FdcFault>, TapeFailed>
        ensures unreached { ReachesNone reads_in self.old.deck addr →
            (result ≡ Ok (Err FdcFault.NoAddress)) × (self.new ≡ self.old) × (into.new ≡ into.old) }
        ensures reached { (segment index : ℕ) → Reaches reads_in self.old.deck addr segment index →
            FindsSectors T.means self.old self.new segment index wanted into.old into.new result }
        ensures size { T.means.size self.new.tape ≡ T.means.size self.old.tape }
    {
        let Some((segment, index)) = reach(&self.deck, addr) else {
            return Ok(Err(FdcFault::NoAddress));
        };
        if !are_from(index, wanted) {
            return Ok(Err(FdcFault::NoAddress));
        }
        self.read_from(segment, index, wanted, into)
    }

    /// Reads sectors of the segment under the head, none of which is below the first; that one it has not passed.
    fn read_from(
        &mut self,
        segment: u32,
        index: u8,
        wanted: LostSet,
        into: &mut [Sector; 32],
    ) -> Result<Result<SectorsRead, FdcFault>, TapeFailed>
        requires place { IsPlaceOf T.means self.old.tape segment 0 }
        requires first { AreFrom index wanted }
        requires streams { is_streaming self.old.deck.motion ≡ true }
        ensures found { FindsSectors T.means self.old self.new segment index wanted into.old into.new result }
        ensures size { T.means.size self.new.tape ≡ T.means.size self.old.tape }
    {
        match self.tape.read_sectors(segment, wanted, into) {
            Ok(read) => {
                self.pass_all(wanted, read.blank);
                Ok(Ok(read))
            }
            Err(TapeFailed) => Err(TapeFailed),
        }
    }
}

impl<T: Tape> Drive<Primary, T> {
    /// Why a protected sector under the head isn't written: it was never formatted, or the mark.
    fn refuse_write(&mut self, segment: u32, index: u8) -> Result<FdcFault, TapeFailed>
        requires { IsPlaceOf T.means self.old.tape segment index }
        ensures refused { (bytes : List ℕ) →
            Writes T.means self.old self.new segment index bytes true (refused_by result) }
        ensures size { T.means.size self.new.tape ≡ T.means.size self.old.tape }
    {
        let mut found = [0; SECTOR];
        match read_sector(&mut self.tape, segment, index, &mut found) {
            Ok(SectorRead::Good | SectorRead::Lost) => Ok(FdcFault::Protected),
            Ok(SectorRead::Blank) => Ok(FdcFault::NoAddress),
            Err(TapeFailed) => Err(TapeFailed),
        }
    }

    /// Writes the sector at an address; where it answers Ok, the head has passed it.
    pub fn write_sector(
        &mut self,
        addr: FloppyAddr,
        from: &Sector,
    ) -> Result<Result<(), FdcFault>, TapeFailed>
        ensures unreached { ReachesNone is_primary self.old.deck addr →
            (result ≡ Ok (Err FdcFault.NoAddress)) × (self.new ≡ self.old) }
        ensures reached { (segment index : ℕ) → Reaches is_primary self.old.deck addr segment index →
            Writes T.means self.old self.new segment index from.now (is_protected self.old.deck) result }
        ensures size { T.means.size self.new.tape ≡ T.means.size self.old.tape }
    {
        let Some((segment, index)) = reach(&self.deck, addr) else {
            return Ok(Err(FdcFault::NoAddress));
        };
        if is_protected(&self.deck) {
            return match self.refuse_write(segment, index) {
                Ok(fault) => Ok(Err(fault)),
                Err(TapeFailed) => Err(TapeFailed),
            };
        }
        self.write_under(segment, index, from)
    }

    /// Writes a sector of the segment under the head, which has not passed it; the cartridge is not protected.
    fn write_under(
        &mut self,
        segment: u32,
        index: u8,
        from: &Sector,
    ) -> Result<Result<(), FdcFault>, TapeFailed>
        requires place { IsPlaceOf T.means self.old.tape segment index }
        requires fits { index < 32 }
        requires streams { StreamsTo self.old.deck.motion index }
        ensures wrote { Writes T.means self.old self.new segment index from.now false result }
        ensures size { T.means.size self.new.tape ≡ T.means.size self.old.tape }
    {
        match write_sector(&mut self.tape, segment, index, from) {
            Ok(SectorWrite::Taken) => {
                self.pass(index);
                Ok(Ok(()))
            }
            Ok(SectorWrite::Blank) => Ok(Err(FdcFault::NoAddress)),
            Err(TapeFailed) => Err(TapeFailed),
        }
    }

    /// Writes sectors of a segment, by the address of the first, each with its entry of `from`. Answers those that were
    /// never formatted and took no write; where it answers Ok, the head has passed the others.
    pub fn write_sectors(
        &mut self,
        addr: FloppyAddr,
        written: LostSet,
        from: &[Sector; 32],
    ) -> Result<Result<LostSet, FdcFault>, TapeFailed>
        ensures unreached { ReachesNone is_primary self.old.deck addr →
            (result ≡ Ok (Err FdcFault.NoAddress)) × (self.new ≡ self.old) }
        ensures reached { (segment index : ℕ) → Reaches is_primary self.old.deck addr segment index →
            WritesSectors T.means self.old self.new segment index written from.now (is_protected self.old.deck) result }
        ensures size { T.means.size self.new.tape ≡ T.means.size self.old.tape }
    {
        let Some((segment, index)) = reach(&self.deck, addr) else {
            return Ok(Err(FdcFault::NoAddress));
        };
        if is_protected(&self.deck) {
            return match self.refuse_write(segment, index) {
                Ok(fault) => Ok(Err(fault)),
                Err(TapeFailed) => Err(TapeFailed),
            };
        }
        if !are_from(index, written) {
            return Ok(Err(FdcFault::NoAddress));
        }
        self.write_from(segment, index, written, from)
    }

    /// Writes sectors of the segment under the head, none of which is below the first; that one it has not passed. The
    /// cartridge is not protected.
    fn write_from(
        &mut self,
        segment: u32,
        index: u8,
        written: LostSet,
        from: &[Sector; 32],
    ) -> Result<Result<LostSet, FdcFault>, TapeFailed>
        requires place { IsPlaceOf T.means self.old.tape segment 0 }
        requires first { AreFrom index written }
        requires streams { is_streaming self.old.deck.motion ≡ true }
        ensures wrote { WritesSectors T.means self.old self.new segment index written from.now false result }
        ensures size { T.means.size self.new.tape ≡ T.means.size self.old.tape }
    {
        match self.tape.write_sectors(segment, written, from) {
            Ok(blank) => {
                self.pass_all(written, blank);
                Ok(Ok(blank))
            }
            Err(TapeFailed) => Err(TapeFailed),
        }
    }
}

impl<T: Tape> Drive<Format, T> {
    /// Formats the segment under the head, and the head moves on.
    pub fn format_segment(&mut self) -> Result<Result<(), FdcFault>, TapeFailed>
        ensures unreached { ¬ (IsFormatting self.old.deck) →
            (result ≡ Ok (Err FdcFault.NoAddress)) × (self.new ≡ self.old) }
        ensures reached { IsFormatting self.old.deck → Formats T.means self.old self.new result }
        ensures size { T.means.size self.new.tape ≡ T.means.size self.old.tape }
    {
        if !is_streaming(&self.deck) {
            return Ok(Err(FdcFault::NoAddress));
        }
        match self.tape.format_segment(segment_of(&self.deck)) {
            Ok(()) => {
                self.deck = run_on(self.deck);
                Ok(Ok(()))
            }
            Err(TapeFailed) => Err(TapeFailed),
        }
    }
}
