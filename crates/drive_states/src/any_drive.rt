//! A drive in whatever state it is.

ghost use Rattle.std.specs.Prelude.{◌≡◌, ℕ, [], ◌∷◌, IfOk, true};
ghost use Rattle.qic_base.specs.Cartridge.{view_at};
ghost use Rattle.qic_base.specs.Step.{Wear, Spoil};
ghost use Rattle.qic_base.specs.TapeCalls.{Does, Tells, IsPlaceOf};
ghost use Rattle.qic_base.specs.Tape.{spoil_answer};
ghost use Rattle.qic117_commands.specs.Views.{is_primary};
ghost use Rattle.drive_spec.specs.Deck.{is_streaming};
ghost use Rattle.drive_spec.specs.Terms.{is_protected, run_on};
ghost use Rattle.drive_spec.specs.Effects.{ticked, reset};
ghost use Rattle.drive_states.specs.AnyDrive.{drive_of, state_of};
ghost use Rattle.drive_states.specs.Errors.{with_error};
ghost use Rattle.drive_states.specs.Reach.{reads_in, Reaches, ReachesNone, IsFormatting, Finds, Writes, Formats};
ghost use Rattle.drive_states.specs.Reach.{FindsSectors, WritesSectors};
ghost use Rattle.drive_states.specs.Sound.{IsSound};
ghost use Rattle.drive_states.specs.Typed.{IsIn, is_seeking};
ghost use Rattle.drive_states.specs.Unit.{Knows};

use crate::deck::is_seeking;
use crate::drive::{Drive, Ticked};
use crate::fault::FdcFault;
use crate::states::{Format, LoadPoint, Primary, Seeking, Verify};
use drive_spec::Deck;
use qic_base::{LostSet, Sector, SectorsRead, Tape, TapeFailed};
use qic117_commands::Mode;
use tape_geometry::FloppyAddr;

/// A typed drive.
#[derive(Drop)]
pub enum AnyDrive<T: Tape> {
    LoadPoint(Drive<LoadPoint, T>),
    Primary(Drive<Primary, T>),
    Format(Drive<Format, T>),
    Verify(Drive<Verify, T>),
    SeekingLoadPoint(Drive<Seeking<LoadPoint>, T>),
    SeekingPrimary(Drive<Seeking<Primary>, T>),
    SeekingFormat(Drive<Seeking<Format>, T>),
    SeekingVerify(Drive<Seeking<Verify>, T>),
}

/// The same for the drive of each state.
macro_rules! in_each_state {
    ($any:expr, $drive:ident => $body:expr) => {
        match $any {
            AnyDrive::LoadPoint($drive) => $body,
            AnyDrive::Primary($drive) => $body,
            AnyDrive::Format($drive) => $body,
            AnyDrive::Verify($drive) => $body,
            AnyDrive::SeekingLoadPoint($drive) => $body,
            AnyDrive::SeekingPrimary($drive) => $body,
            AnyDrive::SeekingFormat($drive) => $body,
            AnyDrive::SeekingVerify($drive) => $body,
        }
    };
}

impl<T: Tape> AnyDrive<T> {
    /// The drive of a deck and a tape, in the state that the deck tells.
    pub fn of(deck: Deck, tape: T) -> AnyDrive<T>
        requires sound { IsSound deck }
        requires known { Knows deck.cartridge (T.means.size tape) }
        ensures { drive_of result ≡ record { deck = deck; tape = tape } }
    {
        if is_seeking(&deck) {
            return AnyDrive::seeking(deck, tape);
        }
        if deck.at_load_point {
            return AnyDrive::LoadPoint(Drive::of(deck, tape));
        }
        match deck.mode {
            Mode::Primary => AnyDrive::Primary(Drive::of(deck, tape)),
            Mode::Format => AnyDrive::Format(Drive::of(deck, tape)),
            Mode::Verify => AnyDrive::Verify(Drive::of(deck, tape)),
        }
    }

    /// The same where the deck seeks.
    fn seeking(deck: Deck, tape: T) -> AnyDrive<T>
        requires sound { IsSound deck }
        requires known { Knows deck.cartridge (T.means.size tape) }
        requires seeks { is_seeking deck.motion ≡ true }
        ensures { drive_of result ≡ record { deck = deck; tape = tape } }
    {
        if deck.at_load_point {
            return AnyDrive::SeekingLoadPoint(Drive::of(deck, tape));
        }
        match deck.mode {
            Mode::Primary => AnyDrive::SeekingPrimary(Drive::of(deck, tape)),
            Mode::Format => AnyDrive::SeekingFormat(Drive::of(deck, tape)),
            Mode::Verify => AnyDrive::SeekingVerify(Drive::of(deck, tape)),
        }
    }

    /// What the drive is in.
    pub fn deck(&self) -> Deck
        ensures deck { result ≡ (drive_of self.now).deck }
        ensures sound { IsSound (drive_of self.now).deck }
        ensures state { IsIn (state_of self.now) (drive_of self.now).deck }
        ensures known { Knows (drive_of self.now).deck.cartridge
            (T.means.size (drive_of self.now).tape) }
    {
        in_each_state!(self, drive => drive.deck())
    }

    /// Does nothing, but brings into view what each drive is by its invariant: its deck is within its bounds and in the
    /// state of its variant, and it knows the size of its cartridge.
    pub fn reveal(&self)
        ensures sound { IsSound (drive_of self.now).deck }
        ensures state { IsIn (state_of self.now) (drive_of self.now).deck }
        ensures known { Knows (drive_of self.now).deck.cartridge
            (T.means.size (drive_of self.now).tape) }
    {
        let _ = self.deck();
    }

    /// The deck, and the tape.
    pub fn into_parts(self) -> (Deck, T)
        ensures deck { result.0 ≡ (drive_of self).deck }
        ensures tape { result.1 ≡ (drive_of self).tape }
        ensures sound { IsSound (drive_of self).deck }
        ensures known { Knows (drive_of self).deck.cartridge (T.means.size (drive_of self).tape) }
    {
        in_each_state!(self, drive => drive.into_parts())
    }

    /// The tape.
    pub fn into_tape(self) -> T
        ensures { result ≡ (drive_of self).tape }
    {
        self.into_parts().1
    }

    /// Sets the error word and the new cartridge flag.
    pub fn set_error(&mut self, error: u16, fresh: bool)
        ensures { drive_of self.new ≡ record (drive_of self.old) {
          deck = with_error error fresh (drive_of self.old).deck;
        } }
    {
        in_each_state!(self, drive => drive.set_error(error, fresh))
    }

    /// The tape that streams runs on by a segment.
    pub fn run_on(&mut self)
        requires { is_streaming (drive_of self.old).deck.motion ≡ true }
        ensures { drive_of self.new ≡ record (drive_of self.old) {
          deck = run_on (drive_of self.old).deck;
        } }
    {
        in_each_state!(self, drive => drive.run_on())
    }

    /// A gap of the drive's seek, where it seeks.
    pub fn tick(self) -> AnyDrive<T>
        ensures { drive_of result ≡ record (drive_of self) { deck = ticked (drive_of self).deck } }
    {
        self.reveal();
        match self {
            AnyDrive::SeekingLoadPoint(drive) => match drive.tick() {
                Ticked::Still(drive) => AnyDrive::SeekingLoadPoint(drive),
                Ticked::There(drive) => AnyDrive::LoadPoint(drive),
            },
            AnyDrive::SeekingPrimary(drive) => match drive.tick() {
                Ticked::Still(drive) => AnyDrive::SeekingPrimary(drive),
                Ticked::There(drive) => AnyDrive::Primary(drive),
            },
            AnyDrive::SeekingFormat(drive) => match drive.tick() {
                Ticked::Still(drive) => AnyDrive::SeekingFormat(drive),
                Ticked::There(drive) => AnyDrive::Format(drive),
            },
            AnyDrive::SeekingVerify(drive) => match drive.tick() {
                Ticked::Still(drive) => AnyDrive::SeekingVerify(drive),
                Ticked::There(drive) => AnyDrive::Verify(drive),
            },
            standing => standing,
        }
    }

    /// The drive is reset.
    pub fn reset(self) -> AnyDrive<T>
        ensures { drive_of result ≡ record (drive_of self) { deck = reset (drive_of self).deck } }
    {
        match self {
            AnyDrive::LoadPoint(drive) => AnyDrive::LoadPoint(drive.reset()),
            AnyDrive::Primary(drive) => AnyDrive::Primary(drive.reset()),
            AnyDrive::Format(drive) => AnyDrive::Primary(drive.reset()),
            AnyDrive::Verify(drive) => AnyDrive::Primary(drive.reset()),
            AnyDrive::SeekingLoadPoint(drive) => AnyDrive::LoadPoint(drive.reset()),
            AnyDrive::SeekingPrimary(drive) => AnyDrive::Primary(drive.reset()),
            AnyDrive::SeekingFormat(drive) => AnyDrive::Primary(drive.reset()),
            AnyDrive::SeekingVerify(drive) => AnyDrive::Primary(drive.reset()),
        }
    }

    /// Reads the sector at an address, in a state that has the call.
    pub fn read_sector(
        &mut self,
        addr: FloppyAddr,
        into: &mut Sector,
    ) -> Result<Result<(), FdcFault>, TapeFailed>
        ensures unreached { ReachesNone reads_in (drive_of self.old).deck addr →
            (result ≡ Ok (Err FdcFault.NoAddress)) × (self.new ≡ self.old) × (into.new ≡ into.old) }
        ensures reached { (segment index : ℕ) → Reaches reads_in (drive_of self.old).deck addr segment index →
            Finds T.means (drive_of self.old) (drive_of self.new) segment index into.old into.new result }
        ensures size { T.means.size (drive_of self.new).tape ≡ T.means.size (drive_of self.old).tape }
    {
        self.reveal();
        match self {
            AnyDrive::Primary(drive) => drive.read_sector(addr, into),
            AnyDrive::Verify(drive) => drive.read_sector(addr, into),
            _ => Ok(Err(FdcFault::NoAddress)),
        }
    }

    /// Writes the sector at an address, in a state that has the call.
    pub fn write_sector(
        &mut self,
        addr: FloppyAddr,
        from: &Sector,
    ) -> Result<Result<(), FdcFault>, TapeFailed>
        ensures unreached { ReachesNone is_primary (drive_of self.old).deck addr →
            (result ≡ Ok (Err FdcFault.NoAddress)) × (self.new ≡ self.old) }
        ensures reached { (segment index : ℕ) → Reaches is_primary (drive_of self.old).deck addr segment index →
            Writes T.means (drive_of self.old) (drive_of self.new) segment index from.now
            (is_protected (drive_of self.old).deck) result }
        ensures size { T.means.size (drive_of self.new).tape ≡ T.means.size (drive_of self.old).tape }
    {
        self.reveal();
        match self {
            AnyDrive::Primary(drive) => drive.write_sector(addr, from),
            _ => Ok(Err(FdcFault::NoAddress)),
        }
    }

    /// Reads the wanted sectors of a segment, by the address of the first, in a state that has the call.
    pub fn read_sectors(
        &mut self,
        addr: FloppyAddr,
        wanted: LostSet,
        into: &mut [Sector; 32],
    ) -> Result<Result<SectorsRead, FdcFault>, TapeFailed>
        ensures unreached { ReachesNone reads_in (drive_of self.old).deck addr →
            (result ≡ Ok (Err FdcFault.NoAddress)) × (self.new ≡ self.old) × (into.new ≡ into.old) }
        ensures reached { (segment index : ℕ) → Reaches reads_in (drive_of self.old).deck addr segment index →
            FindsSectors T.means (drive_of self.old) (drive_of self.new) segment index wanted into.old into.new result }
        ensures size { T.means.size (drive_of self.new).tape ≡ T.means.size (drive_of self.old).tape }
    {
        self.reveal();
        match self {
            AnyDrive::Primary(drive) => drive.read_sectors(addr, wanted, into),
            AnyDrive::Verify(drive) => drive.read_sectors(addr, wanted, into),
            _ => Ok(Err(FdcFault::NoAddress)),
        }
    }

    /// Writes sectors of a segment, by the address of the first, in a state that has the call.
    pub fn write_sectors(
        &mut self,
        addr: FloppyAddr,
        written: LostSet,
        from: &[Sector; 32],
    ) -> Result<Result<LostSet, FdcFault>, TapeFailed>
        ensures unreached { ReachesNone is_primary (drive_of self.old).deck addr →
            (result ≡ Ok (Err FdcFault.NoAddress)) × (self.new ≡ self.old) }
        ensures reached { (segment index : ℕ) → Reaches is_primary (drive_of self.old).deck addr segment index →
            WritesSectors T.means (drive_of self.old) (drive_of self.new) segment index written from.now
            (is_protected (drive_of self.old).deck) result }
        ensures size { T.means.size (drive_of self.new).tape ≡ T.means.size (drive_of self.old).tape }
    {
        self.reveal();
        match self {
            AnyDrive::Primary(drive) => drive.write_sectors(addr, written, from),
            _ => Ok(Err(FdcFault::NoAddress)),
        }
    }

    /// Formats the segment under the head, in a state that has the call.
    pub fn format_segment(&mut self) -> Result<Result<(), FdcFault>, TapeFailed>
        ensures unreached { ¬ (IsFormatting (drive_of self.old).deck) →
            (result ≡ Ok (Err FdcFault.NoAddress)) × (self.new ≡ self.old) }
        ensures reached { IsFormatting (drive_of self.old).deck →
            Formats T.means (drive_of self.old) (drive_of self.new) result }
        ensures size { T.means.size (drive_of self.new).tape ≡ T.means.size (drive_of self.old).tape }
    {
        self.reveal();
        match self {
            AnyDrive::Format(drive) => drive.format_segment(),
            _ => Ok(Err(FdcFault::NoAddress)),
        }
    }

    /// Makes a readable sector of the cartridge unreadable.
    pub fn wear(&mut self, segment: u32, sector: u8) -> Result<(), TapeFailed>
        requires { IsPlaceOf T.means (drive_of self.old).tape segment sector }
        ensures deck { (drive_of self.new).deck ≡ (drive_of self.old).deck }
        ensures did { Does T.means (drive_of self.old).tape (drive_of self.new).tape
            (Wear segment sector ∷ []) result }
        ensures size { T.means.size (drive_of self.new).tape ≡ T.means.size (drive_of self.old).tape }
    {
        in_each_state!(self, drive => drive.wear(segment, sector))
    }

    /// Makes a defect of a sector of the cartridge that was never formatted. Answers whether it is one now.
    pub fn spoil(&mut self, segment: u32, sector: u8) -> Result<bool, TapeFailed>
        requires { IsPlaceOf T.means (drive_of self.old).tape segment sector }
        ensures deck { (drive_of self.new).deck ≡ (drive_of self.old).deck }
        ensures did { Does T.means (drive_of self.old).tape (drive_of self.new).tape
            (Spoil segment sector ∷ []) result }
        ensures answer { IfOk result (λ answer. Tells T.means (drive_of self.old).tape (λ c.
            answer ≡ spoil_answer (view_at c segment sector))) }
        ensures size { T.means.size (drive_of self.new).tape ≡ T.means.size (drive_of self.old).tape }
    {
        in_each_state!(self, drive => drive.spoil(segment, sector))
    }
}
