//! What a tape in memory holds, without its failures and its record.

ghost use Rattle.std.specs.Prelude.{◌≡◌, ◌≢◌, ◌*◌, false, true, None, length, IfOk, IfSome, IsSomeAnd, if◌then◌else◌};
ghost use Rattle.std.specs.Option.{ForSome};
ghost use Rattle.qic_base.specs.Cartridge.{IsLength, IsPlace, view_at, new_version, info_of};
ghost use Rattle.qic_base.specs.CartridgeTerms.{place_of};
ghost use Rattle.qic_base.specs.Step.{WriteSectors, write_sector, FormatSegment, SetReferenced, SetProtected, Renew, Wear, Spoil, Upgrade};
ghost use Rattle.qic_base.specs.TapeCalls.{ReadsSectors, KeepsOthers, AreBlank, chosen};
ghost use Rattle.qic_base.specs.Tape.{spoil_answer};
ghost use Rattle.qic_mem.specs.TapeChange.{step_of, IsReached, is_past};
ghost use Rattle.qic_mem.specs.Held.{FitsRoom};
ghost use Rattle.qic_mem.specs.Outcome.{lost_by, left_by, size_ended};

use crate::tape::change::TapeChange;
use crate::tape::outcome::Outcome;
use crate::tape::sectors::{Sectors, is_in};
use qic_base::{LostSet, NoMemory, Sector, SectorsRead, TapeInfo};
use std::alloc::Global;

/// Sectors for each segment per track: 28 tracks of 32 sectors a segment (QIC-80-MC).
const SECTORS_PER_LENGTH: usize = 896;

/// The version of the newest layout.
const NEWEST: u8 = 2;

/// What a tape in memory holds: the cartridge in it, and whether its size was told. Its calls never fail.
#[derive(Drop)]
pub(crate) struct Holder {
    room: u16,
    info: Option<TapeInfo>,
    told: bool,
    sectors: Sectors,
    ghost long: { length sectors.views.items ≡ 896 * room },
    ghost fits: { ForSome info (FitsRoom room) },
}

#[tactic(auto, unfolding(crate::specs::Holder::holder_state))]
impl Holder {
    ghost use Rattle.qic_mem.specs.Holder.{holder_state, made, looked_at};

    /// No cartridge, and room for one of `room` segments per track, which it takes at once.
    pub(crate) fn new(alloc: Global, room: u16) -> Result<Self, NoMemory>
        ensures { IfOk result (λ holder. holder_state holder
            ≡ record { cartridge = None; size = None; room = room }) }
    {
        Ok(Holder {
            room,
            info: None,
            told: false,
            sectors: Sectors::new(alloc, SECTORS_PER_LENGTH * room as usize)?,
        })
    }

    /// Whether the change puts in a cartridge that is longer than the room.
    pub(crate) fn is_past(&self, change: &TapeChange) -> bool
        ensures { result ≡ is_past (holder_state self.now).room (step_of change.now) }
    {
        match change {
            TapeChange::Renew(segments_per_track) => self.room < *segments_per_track,
            _ => false,
        }
    }

    /// Tells what the cartridge is.
    pub(crate) fn info(&mut self) -> Option<TapeInfo>
        ensures info { result ≡ info_of (holder_state self.old).cartridge }
        ensures state { holder_state self.new ≡ looked_at (holder_state self.old) }
    {
        self.told = true;
        self.info
    }

    /// Reads the wanted sectors of a segment, each into its entry.
    pub(crate) fn read_sectors(
        &self,
        segment: u32,
        wanted: u32,
        into: &mut [Sector; 32],
    ) -> SectorsRead
        requires { IsSomeAnd (holder_state self.now).size (λ n. IsPlace n segment 0) }
        ensures reads { IfSome (holder_state self.now).cartridge (λ c.
            ReadsSectors wanted result.good result.blank (view_at c segment) into.old into.new) }
        ensures kept { KeepsOthers result.good into.old into.new }
    {
        self.sectors
            .read_several(view_index(segment, 0), wanted, into)
    }

    /// Which sectors of a segment that are to be written were never formatted.
    pub(crate) fn blank_ones(&self, segment: u32, written: u32) -> LostSet
        requires { IsSomeAnd (holder_state self.now).size (λ n. IsPlace n segment 0) }
        ensures { IfSome (holder_state self.now).cartridge (λ c. AreBlank written result (view_at c segment)) }
    {
        self.sectors.blank_ones(view_index(segment, 0), written)
    }

    /// Whether a sector is a defect once it is spoiled.
    pub(crate) fn spoil_answer(&self, segment: u32, sector: u8) -> bool
        requires { IsSomeAnd (holder_state self.now).size (λ n. IsPlace n segment sector) }
        ensures { IfSome (holder_state self.now).cartridge (λ c.
            result ≡ spoil_answer (view_at c segment sector)) }
    {
        self.sectors.spoil_answer(view_index(segment, sector))
    }

    /// The version of the layout, which is always the newest.
    pub(crate) fn version(&self) -> u8
        ensures newest { result ≡ new_version }
        ensures here { IfSome (holder_state self.now).cartridge (λ c. result ≡ c.version) }
    {
        NEWEST
    }

    /// Writes a sector, where it was formatted and is no defect.
    fn write(&mut self, segment: u32, sector: u8, from: &Sector)
        requires { IsSomeAnd (holder_state self.old).size (λ n. IsPlace n segment sector) }
        ensures { holder_state self.new ≡ made (holder_state self.old) (write_sector segment sector from.now) }
    {
        self.sectors.write(view_index(segment, sector), from);
    }

    /// Writes a sector, where that is to be.
    fn write_if(&mut self, segment: u32, sector: u8, is_written: bool, from: &Sector)
        requires { IsSomeAnd (holder_state self.old).size (λ n. IsPlace n segment sector) }
        ensures { holder_state self.new ≡ (if is_written then made (holder_state self.old)
            (write_sector segment sector from.now) else holder_state self.old) }
    {
        if is_written {
            self.write(segment, sector, from);
        }
    }

    /// Makes a sector unreadable, where that is to be and it holds bytes.
    fn wear_if(&mut self, segment: u32, sector: u8, is_worn: bool)
        requires { IsSomeAnd (holder_state self.old).size (λ n. IsPlace n segment sector) }
        ensures { holder_state self.new ≡ (if is_worn then made (holder_state self.old)
            (Wear segment sector) else holder_state self.old) }
    {
        if is_worn {
            self.wear(segment, sector);
        }
    }

    /// Writes sectors of a segment, each with its entry, where they were formatted and are no defects.
    fn write_sectors(&mut self, segment: u32, written: u32, from: &[Sector; 32])
        requires { IsSomeAnd (holder_state self.old).size (λ n. IsPlace n segment 0) }
        ensures { holder_state self.new
            ≡ made (holder_state self.old) (WriteSectors segment (chosen written from.now)) }
    {
        for i in 0..32 {
            self.write_if(segment, i as u8, is_in(written, i), &from[i]);
        }
    }

    /// Makes the sectors of a segment that were to be written unreadable.
    fn wear_sectors(&mut self, segment: u32, written: u32, from: &[Sector; 32])
        requires { IsSomeAnd (holder_state self.old).size (λ n. IsPlace n segment 0) }
        ensures { holder_state self.new ≡ record (holder_state self.old) {
          cartridge = lost_by (WriteSectors segment (chosen written from.now)) (holder_state self.old).cartridge;
        } }
    {
        for i in 0..32 {
            self.wear_if(segment, i as u8, is_in(written, i));
        }
    }

    /// Formats a segment.
    fn format_segment(&mut self, segment: u32)
        requires { IsSomeAnd (holder_state self.old).size (λ n. IsPlace n segment 0) }
        ensures { holder_state self.new ≡ made (holder_state self.old) (FormatSegment segment) }
    {
        self.sectors.format_segment(view_index(segment, 0));
    }

    /// Sets the referenced mark.
    fn set_referenced(&mut self)
        ensures { holder_state self.new ≡ made (holder_state self.old) SetReferenced }
    {
        self.info = self.info.map(|info| TapeInfo {
            referenced: true,
            ..info
        });
    }

    /// Sets or clears the write protect mark.
    fn set_protected(&mut self, on: bool)
        ensures { holder_state self.new ≡ made (holder_state self.old) (SetProtected on) }
    {
        self.info = self.info.map(|info| TapeInfo {
            protected: on,
            ..info
        });
    }

    /// Puts in a new cartridge, and tells its size.
    fn renew(&mut self, segments_per_track: u16)
        requires long { IsLength segments_per_track }
        requires room { is_past (holder_state self.old).room (Renew segments_per_track) ≡ false }
        ensures { holder_state self.new ≡ made (holder_state self.old) (Renew segments_per_track) }
    {
        self.sectors
            .clear(SECTORS_PER_LENGTH * segments_per_track as usize);
        self.info = Some(TapeInfo {
            segments_per_track,
            protected: false,
            referenced: false,
        });
        self.told = true;
    }

    /// Makes a sector unreadable, where it holds bytes.
    fn wear(&mut self, segment: u32, sector: u8)
        requires { IsSomeAnd (holder_state self.old).size (λ n. IsPlace n segment sector) }
        ensures { holder_state self.new ≡ made (holder_state self.old) (Wear segment sector) }
    {
        self.sectors.wear(view_index(segment, sector));
    }

    /// Makes a defect of a sector, where it was never formatted.
    fn spoil(&mut self, segment: u32, sector: u8)
        requires { IsSomeAnd (holder_state self.old).size (λ n. IsPlace n segment sector) }
        ensures { holder_state self.new ≡ made (holder_state self.old) (Spoil segment sector) }
    {
        self.sectors.spoil(view_index(segment, sector));
    }

    /// Brings the cartridge to the newest layout, in which it is.
    fn upgrade(&mut self)
        ensures { holder_state self.new ≡ made (holder_state self.old) Upgrade }
    {}

    /// Makes each readable sector of a segment unreadable.
    fn wear_segment(&mut self, segment: u32)
        requires { IsSomeAnd (holder_state self.old).size (λ n. IsPlace n segment 0) }
        ensures { holder_state self.new ≡ record (holder_state self.old) {
          cartridge = lost_by (FormatSegment segment) (holder_state self.old).cartridge;
        } }
    {
        self.sectors.wear_segment(view_index(segment, 0));
    }

    /// Takes the cartridge away.
    fn remove(&mut self)
        ensures { holder_state self.new ≡ record (holder_state self.old) { cartridge = None; size = None } }
    {
        self.info = None;
        self.told = false;
    }

    /// The size is told no more.
    fn forget_size(&mut self)
        ensures { holder_state self.new ≡ record (holder_state self.old) { size = None } }
    {
        self.told = false;
    }

    /// Makes a change.
    pub(crate) fn make(&mut self, change: &TapeChange)
        requires reached { IsReached (holder_state self.old).size (step_of change.now) }
        requires room { is_past (holder_state self.old).room (step_of change.now) ≡ false }
        ensures { holder_state self.new ≡ made (holder_state self.old) (step_of change.now) }
    {
        match change {
            TapeChange::WriteSectors(segment, written, from) => {
                self.write_sectors(*segment, *written, from)
            }
            TapeChange::FormatSegment(segment) => self.format_segment(*segment),
            TapeChange::SetReferenced => self.set_referenced(),
            TapeChange::SetProtected(on) => self.set_protected(*on),
            TapeChange::Renew(segments_per_track) => self.renew(*segments_per_track),
            TapeChange::Wear(segment, sector) => self.wear(*segment, *sector),
            TapeChange::Spoil(segment, sector) => self.spoil(*segment, *sector),
            TapeChange::Upgrade => self.upgrade(),
        }
    }

    /// Loses what a change was to write.
    fn lose(&mut self, change: &TapeChange)
        requires { IsReached (holder_state self.old).size (step_of change.now) }
        ensures { holder_state self.new ≡ record (holder_state self.old) {
          cartridge = lost_by (step_of change.now) (holder_state self.old).cartridge;
          size = size_ended (step_of change.now) true (holder_state self.old).size;
        } }
    {
        match change {
            TapeChange::WriteSectors(segment, written, from) => {
                self.wear_sectors(*segment, *written, from)
            }
            TapeChange::FormatSegment(segment) => self.wear_segment(*segment),
            TapeChange::Renew(_) => self.remove(),
            TapeChange::Upgrade => self.forget_size(),
            _ => {}
        }
    }

    /// Leaves what a change that fails is to leave.
    pub(crate) fn fail(&mut self, change: &TapeChange, outcome: Outcome)
        requires reached { IsReached (holder_state self.old).size (step_of change.now) }
        requires room { outcome ≢ Outcome.Old
            → is_past (holder_state self.old).room (step_of change.now) ≡ false }
        ensures { holder_state self.new ≡ record (holder_state self.old) {
          cartridge = left_by outcome (step_of change.now) (holder_state self.old).cartridge;
          size = size_ended (step_of change.now) true (holder_state self.old).size;
        } }
    {
        match outcome {
            Outcome::Old => {}
            Outcome::Lost => self.lose(change),
            Outcome::New => self.make(change),
        }
        if let TapeChange::Renew(_) | TapeChange::Upgrade = change {
            self.forget_size();
        }
    }
}

/// Where the view of a sector stands among all of them.
fn view_index(segment: u32, sector: u8) -> usize
    ensures { result ≡ place_of segment sector }
{
    32 * segment as usize + sector as usize
}
