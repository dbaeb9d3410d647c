//! A tape in memory that never fails.

ghost use Rattle.std.specs.Prelude.{◌≡◌, [], ◌∷◌, Some, None, IsOk, IsSome, IfOk, IfSome, OnOk, OnErr};
ghost use Rattle.std.specs.Option.{option_map};
ghost use Rattle.qic_base.specs.Cartridge.{IsLength, view_at, new_version, info_of};
ghost use Rattle.qic_base.specs.CartridgeTerms.{IsVersion};
ghost use Rattle.qic_base.specs.Step.{WriteSectors, FormatSegment, SetReferenced, SetProtected, Renew, Wear, Spoil, Upgrade};
ghost use Rattle.qic_base.specs.TapeCalls.{Does, Tells, IsPlaceOf, ReadsSectors, KeepsOthers, chosen, AreBlank};
ghost use Rattle.qic_base.specs.Tape.{Done, spoil_answer};
ghost use Rattle.qic_mem.specs.TapeChange.{step_of, IsReached};
ghost use Rattle.qic_mem.specs.Longest.{HasLongest};

use crate::tape::change::TapeChange;
use crate::tape::holder::Holder;
use qic_base::{LONGEST, LostSet, NoMemory, Sector, SectorsRead, Tape, TapeFailed, TapeInfo};
use std::alloc::Global;

/// A tape in memory whose calls never fail.
#[derive(Drop)]
pub struct SureTape {
    holder: Holder,
    ghost longest: { HasLongest holder },
}

#[tactic(auto, unfolding(crate::specs::Sure::sure_state))]
impl SureTape {
    ghost use Rattle.qic_base.specs.declared.TheConstants.{LONGEST as longest};
    ghost use Rattle.qic_mem.specs.Holder.{made};
    ghost use Rattle.qic_mem.specs.Sure.{sure_state, sure_means};

    /// An empty drive with room for a cartridge of the greatest length, which it takes at once. It does not tell its
    /// stops.
    pub fn new(alloc: Global) -> Result<Self, NoMemory>
        ensures { IfOk result (λ tape. sure_state tape
            ≡ record { cartridge = None; size = None; room = longest }) }
    {
        Ok(SureTape {
            holder: Holder::new(alloc, LONGEST)?,
        })
    }

    /// Makes a change.
    fn run(&mut self, change: TapeChange)
        requires { IsReached (sure_state self.old).size (step_of change) }
        ensures did { Done sure_means self.old self.new (step_of change ∷ []) }
        ensures state { sure_state self.new ≡ made (sure_state self.old) (step_of change) }
    {
        self.holder.make(&change);
    }
}

#[tactic(auto, unfolding(crate::specs::Sure::sure_state))]
impl Tape for SureTape {
    ghost use Rattle.qic_mem.specs.Holder.{made, looked_at};
    ghost use Rattle.qic_mem.specs.Sure.{sure_state, sure_means, sure-size_fits, sure-told_right, sure-left_now};

    ghost means = { sure_means };

    ghost size_fits = { sure-size_fits };

    ghost told_right = { sure-told_right };

    ghost left_now = { sure-left_now };

    fn info(&mut self) -> Result<Option<TapeInfo>, TapeFailed>
        ensures did { Does sure_means self.old self.new [] result }
        ensures info { IfOk result (λ info.
            IfSome (sure_means.told self.old) (λ held. info ≡ info_of held)) }
        ensures size { IfOk result (λ info.
            sure_means.size self.new ≡ option_map (λ i. i.segments_per_track) info) }
        ensures failed { OnErr result (sure_means.size self.new ≡ sure_means.size self.old) }

        // It does not fail, and the whole state follows.
        ensures succeeds { IsOk result }
        ensures state { sure_state self.new ≡ looked_at (sure_state self.old) }
    {
        Ok(self.holder.info())
    }

    fn read_sectors(
        &mut self,
        segment: u32,
        wanted: LostSet,
        into: &mut [Sector; 32],
    ) -> Result<SectorsRead, TapeFailed>
        requires { IsPlaceOf sure_means self.old segment 0 }
        ensures did { Does sure_means self.old self.new [] result }
        ensures reads { IfOk result (λ read. Tells sure_means self.old (λ c.
            ReadsSectors wanted read.good read.blank (view_at c segment) into.old into.new)) }
        ensures kept { IfOk result (λ read. KeepsOthers read.good into.old into.new) }
        ensures unchanged { OnErr result (into.new ≡ into.old) }
        ensures size { sure_means.size self.new ≡ sure_means.size self.old }

        ensures succeeds { IsOk result }
        ensures state { sure_state self.new ≡ sure_state self.old }
    {
        Ok(self.holder.read_sectors(segment, wanted.mask(), into))
    }

    fn write_sectors(
        &mut self,
        segment: u32,
        written: LostSet,
        from: &[Sector; 32],
    ) -> Result<LostSet, TapeFailed>
        requires { IsPlaceOf sure_means self.old segment 0 }
        ensures did { Does sure_means self.old self.new
            (WriteSectors segment (chosen written from.now) ∷ []) result }
        ensures answer { IfOk result (λ blank. Tells sure_means self.old (λ c.
            AreBlank written blank (view_at c segment))) }
        ensures size { sure_means.size self.new ≡ sure_means.size self.old }

        ensures succeeds { IsOk result }
        ensures state { sure_state self.new
            ≡ made (sure_state self.old) (WriteSectors segment (chosen written from.now)) }
    {
        let written = written.mask();
        let blank = self.holder.blank_ones(segment, written);
        self.run(TapeChange::WriteSectors(segment, written, *from));
        Ok(blank)
    }

    fn format_segment(&mut self, segment: u32) -> Result<(), TapeFailed>
        requires { IsPlaceOf sure_means self.old segment 0 }
        ensures did { Does sure_means self.old self.new (FormatSegment segment ∷ []) result }
        ensures size { sure_means.size self.new ≡ sure_means.size self.old }

        ensures succeeds { IsOk result }
        ensures state { sure_state self.new ≡ made (sure_state self.old) (FormatSegment segment) }
    {
        self.run(TapeChange::FormatSegment(segment));
        Ok(())
    }

    fn set_referenced(&mut self) -> Result<(), TapeFailed>
        requires { IsSome (sure_means.size self.old) }
        ensures did { Does sure_means self.old self.new (SetReferenced ∷ []) result }
        ensures size { sure_means.size self.new ≡ sure_means.size self.old }

        ensures succeeds { IsOk result }
        ensures state { sure_state self.new ≡ made (sure_state self.old) SetReferenced }
    {
        self.run(TapeChange::SetReferenced);
        Ok(())
    }

    fn set_protected(&mut self, on: bool) -> Result<(), TapeFailed>
        requires { IsSome (sure_means.size self.old) }
        ensures did { Does sure_means self.old self.new (SetProtected on ∷ []) result }
        ensures size { sure_means.size self.new ≡ sure_means.size self.old }

        ensures succeeds { IsOk result }
        ensures state { sure_state self.new ≡ made (sure_state self.old) (SetProtected on) }
    {
        self.run(TapeChange::SetProtected(on));
        Ok(())
    }

    fn renew(&mut self, segments_per_track: u16) -> Result<(), TapeFailed>
        requires { IsLength segments_per_track }
        ensures did { Does sure_means self.old self.new (Renew segments_per_track ∷ []) result }
        ensures size { OnOk result (sure_means.size self.new ≡ Some segments_per_track) }
        ensures failed { OnErr result (sure_means.size self.new ≡ None) }

        ensures succeeds { IsOk result }
        ensures state { sure_state self.new ≡ made (sure_state self.old) (Renew segments_per_track) }
    {
        self.run(TapeChange::Renew(segments_per_track));
        Ok(())
    }

    fn wear(&mut self, segment: u32, sector: u8) -> Result<(), TapeFailed>
        requires { IsPlaceOf sure_means self.old segment sector }
        ensures did { Does sure_means self.old self.new (Wear segment sector ∷ []) result }
        ensures size { sure_means.size self.new ≡ sure_means.size self.old }

        ensures succeeds { IsOk result }
        ensures state { sure_state self.new ≡ made (sure_state self.old) (Wear segment sector) }
    {
        self.run(TapeChange::Wear(segment, sector));
        Ok(())
    }

    fn spoil(&mut self, segment: u32, sector: u8) -> Result<bool, TapeFailed>
        requires { IsPlaceOf sure_means self.old segment sector }
        ensures did { Does sure_means self.old self.new (Spoil segment sector ∷ []) result }
        ensures answer { IfOk result (λ answer. Tells sure_means self.old (λ c.
            answer ≡ spoil_answer (view_at c segment sector))) }
        ensures size { sure_means.size self.new ≡ sure_means.size self.old }

        ensures succeeds { IsOk result }
        ensures state { sure_state self.new ≡ made (sure_state self.old) (Spoil segment sector) }
    {
        let answer = self.holder.spoil_answer(segment, sector);
        self.run(TapeChange::Spoil(segment, sector));
        Ok(answer)
    }

    fn upgrade(&mut self) -> Result<u8, TapeFailed>
        requires { IsSome (sure_means.size self.old) }
        ensures did { Does sure_means self.old self.new (Upgrade ∷ []) result }
        ensures answer { IfOk result (λ version. Tells sure_means self.old (λ c. version ≡ c.version)) }
        ensures version { IfOk result (λ version. IsVersion version) }
        ensures size { OnOk result (sure_means.size self.new ≡ sure_means.size self.old) }
        ensures failed { OnErr result (sure_means.size self.new ≡ None) }

        // The layout is always the newest.
        ensures newest { IfOk result (λ version. version ≡ new_version) }
        ensures succeeds { IsOk result }
        ensures state { sure_state self.new ≡ made (sure_state self.old) Upgrade }
    {
        let version = self.holder.version();
        self.run(TapeChange::Upgrade);
        Ok(version)
    }
}
