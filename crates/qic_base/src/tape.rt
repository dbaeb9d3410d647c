//! The outside that holds a cartridge: the calls of a tape, and what each answers.

ghost use Rattle.std.specs.Prelude.{◌≡◌, ◌≢◌, ◌<◌, [], ◌∷◌, None, Some, IfOk, IfSome, IsSome, OnErr, OnOk};
ghost use Rattle.std.specs.Option.{option_map};
ghost use Rattle.qic_base.specs.Cartridge.{IsLength, view_at, info_of};
ghost use Rattle.qic_base.specs.CartridgeTerms.{IsVersion};
ghost use Rattle.qic_base.specs.Step.{WriteSectors, FormatSegment, SetReferenced, SetProtected, Renew, Wear, Spoil, Upgrade};
ghost use Rattle.qic_base.specs.Tape.{Meaning, spoil_answer};
ghost use Rattle.qic_base.specs.TapeCalls.{Does, Tells, IsPlaceOf, IsToldRight, IsLeftNow};
ghost use Rattle.qic_base.specs.TapeCalls.{ReadsSectors, KeepsOthers, chosen, AreBlank};

use crate::{LostSet, Sector};

/// A call of a tape failed.
#[derive(Clone, Copy, Debug, PartialEq, Eq)]
pub struct TapeFailed;

/// What a drive can tell of a cartridge by looking at it: its segments per track, in an answer of `info` 3 to
/// `LONGEST`, and its marks.
#[derive(Clone, Copy, Debug, PartialEq, Eq)]
pub struct TapeInfo {
    pub segments_per_track: u16,
    pub protected: bool,
    pub referenced: bool,
}

/// What a sector is: never formatted; never readable, whatever is written; formatted, and not readable now; or
/// readable, with its 1,024 bytes.
#[derive(Clone, Copy)]
pub enum SectorView {
    Blank,
    Defect,
    Lost,
    Holds(Sector),
}

/// What a read of a sector found.
#[derive(Clone, Copy, Debug, PartialEq, Eq)]
pub enum SectorRead {
    Good,
    Lost,
    Blank,
}

/// What became of a write: a sector that was never formatted takes none.
#[derive(Clone, Copy, Debug, PartialEq, Eq)]
pub enum SectorWrite {
    Taken,
    Blank,
}

/// What a read of several sectors of a segment found: which of them are good, and which were never formatted. The others that
/// were asked for are lost, or defects.
#[derive(Clone, Copy, Debug, PartialEq, Eq)]
pub struct SectorsRead {
    pub good: LostSet,
    pub blank: LostSet,
}

/// A drive's cartridge, or an empty drive, as the drive's heads and switches reach it.
/// Segments are counted from 0 over all 28 tracks, sectors of a segment from 0 to 31.
pub trait Tape {
    ghost means: { Meaning Self };

    /// What the cartridge is. None exactly where there is none.
    fn info(&mut self) -> Result<Option<TapeInfo>, TapeFailed>
        ensures did { Does means self.old self.new [] result }
        ensures info { IfOk result (λ info.
            IfSome (means.told self.old) (λ held. info ≡ info_of held)) }
        ensures size { IfOk result (λ info.
            means.size self.new ≡ option_map (λ i. i.segments_per_track) info) }
        ensures failed { OnErr result (means.size self.new ≡ means.size self.old) };

    /// Reads the wanted sectors of a segment, each into its entry of `into`. An entry is unchanged unless its sector is
    /// good.
    fn read_sectors(
        &mut self,
        segment: u32,
        wanted: LostSet,
        into: &mut [Sector; 32],
    ) -> Result<SectorsRead, TapeFailed>
        requires { IsPlaceOf means self.old segment 0 }
        ensures did { Does means self.old self.new [] result }
        ensures reads { IfOk result (λ read. Tells means self.old (λ c.
            ReadsSectors wanted read.good read.blank (view_at c segment) into.old into.new)) }
        ensures kept { IfOk result (λ read. KeepsOthers read.good into.old into.new) }
        ensures unchanged { OnErr result (into.new ≡ into.old) }
        ensures size { means.size self.new ≡ means.size self.old };

    /// Writes sectors of a segment, each with its entry of `from`. Answers those that were never formatted and took no
    /// write; a defect takes its write and keeps nothing. A call that fails leaves each sector as a stop in it does.
    fn write_sectors(
        &mut self,
        segment: u32,
        written: LostSet,
        from: &[Sector; 32],
    ) -> Result<LostSet, TapeFailed>
        requires { IsPlaceOf means self.old segment 0 }
        ensures did { Does means self.old self.new
            (WriteSectors segment (chosen written from.now) ∷ []) result }
        ensures answer { IfOk result (λ blank. Tells means self.old (λ c.
            AreBlank written blank (view_at c segment))) }
        ensures size { means.size self.new ≡ means.size self.old };

    /// Formats a segment: each of its sectors that is no defect holds 1,024 zero bytes.
    fn format_segment(&mut self, segment: u32) -> Result<(), TapeFailed>
        requires { IsPlaceOf means self.old segment 0 }
        ensures did { Does means self.old self.new (FormatSegment segment ∷ []) result }
        ensures size { means.size self.new ≡ means.size self.old };

    /// Sets the referenced mark.
    fn set_referenced(&mut self) -> Result<(), TapeFailed>
        requires { IsSome (means.size self.old) }
        ensures did { Does means self.old self.new (SetReferenced ∷ []) result }
        ensures size { means.size self.new ≡ means.size self.old };

    /// Sets or clears the write protect mark.
    fn set_protected(&mut self, on: bool) -> Result<(), TapeFailed>
        requires { IsSome (means.size self.old) }
        ensures did { Does means self.old self.new (SetProtected on ∷ []) result }
        ensures size { means.size self.new ≡ means.size self.old };

    /// Puts in a new cartridge, never formatted, with neither mark.
    fn renew(&mut self, segments_per_track: u16) -> Result<(), TapeFailed>
        requires { IsLength segments_per_track }
        ensures did { Does means self.old self.new (Renew segments_per_track ∷ []) result }
        ensures size { OnOk result (means.size self.new ≡ Some segments_per_track) }
        ensures failed { OnErr result (means.size self.new ≡ None) };

    /// Makes a readable sector unreadable until it is written again.
    fn wear(&mut self, segment: u32, sector: u8) -> Result<(), TapeFailed>
        requires { IsPlaceOf means self.old segment sector }
        ensures did { Does means self.old self.new (Wear segment sector ∷ []) result }
        ensures size { means.size self.new ≡ means.size self.old };

    /// Makes a defect of a sector that was never formatted. Answers whether it is a defect now.
    fn spoil(&mut self, segment: u32, sector: u8) -> Result<bool, TapeFailed>
        requires { IsPlaceOf means self.old segment sector }
        ensures did { Does means self.old self.new (Spoil segment sector ∷ []) result }
        ensures answer { IfOk result (λ answer. Tells means self.old (λ c.
            answer ≡ spoil_answer (view_at c segment sector))) }
        ensures size { means.size self.new ≡ means.size self.old };

    /// Has the cartridge kept in the newest layout. Answers the version of the layout before, 1 or 2. A call that fails
    /// leaves it in one of the two, whole.
    fn upgrade(&mut self) -> Result<u8, TapeFailed>
        requires { IsSome (means.size self.old) }
        ensures did { Does means self.old self.new (Upgrade ∷ []) result }
        ensures answer { IfOk result (λ version. Tells means self.old (λ c. version ≡ c.version)) }
        ensures version { IfOk result (λ version. IsVersion version) }
        ensures size { OnOk result (means.size self.new ≡ means.size self.old) }
        ensures failed { OnErr result (means.size self.new ≡ None) };

    /// The size is a number of segments per track.
    ghost size_fits: { (s : Self) → IfSome (means.size s) IsLength };

    /// A told cartridge is whole, and of the size.
    ghost told_right: { (s : Self) → IsToldRight (means.told s) (means.size s) };

    /// A tape that tells its stops tells its cartridge, and a stop now leaves just that; earlier moments count what
    /// later ones do.
    ghost left_now: { (s : Self) → IsLeftNow means s };
}
