//! A tape in memory.

ghost use Rattle.std.specs.Prelude.{◌≡◌, ◌↔◌, [], ◌∷◌, Some, None, is_err, IsErr, IsSome, IfOk, IfSome, OnOk, OnErr};
ghost use Rattle.std.specs.Option.{option_map};
ghost use Rattle.qic_base.specs.Cartridge.{IsLength, view_at, new_version, info_of};
ghost use Rattle.qic_base.specs.CartridgeTerms.{IsVersion};
ghost use Rattle.qic_base.specs.Step.{WriteSectors, FormatSegment, SetReferenced, SetProtected, Renew, Wear, Spoil, Upgrade};
ghost use Rattle.qic_base.specs.TapeCalls.{Does, Tells, IsPlaceOf, ReadsSectors, KeepsOthers, chosen, AreBlank};
ghost use Rattle.qic_base.specs.Tape.{spoil_answer};
ghost use Rattle.qic_mem.specs.TapeChange.{step_of, IsReached};
ghost use Rattle.qic_mem.specs.Plan.{new_plan, IsChosen};
ghost use Rattle.qic_mem.specs.TapeLog.{new_log};
ghost use Rattle.qic_mem.specs.Replayed.{IsReplayed, IsReplayed-prop};

mod change;
mod holder;
mod log;
mod outcome;
mod sectors;
pub mod sure;

use crate::plan::CallPlan;
use change::TapeChange;
use holder::Holder;
use log::{Call, TapeRecord, add_call, is_full};
use outcome::End;
pub use outcome::Outcome;
use qic_base::{LostSet, NoMemory, Sector, SectorsRead, Tape, TapeFailed, TapeInfo};
use std::alloc::Global;
pub use sure::SureTape;

/// A tape in memory, whose chosen calls fail.
#[derive(Drop)]
pub struct MemTape {
    holder: Holder,
    plan: CallPlan,
    outcome: Outcome,
    log: Option<TapeRecord>,
    ghost replayed: { IsReplayed log holder } by { IsReplayed-prop log holder },
}

#[tactic(auto, unfolding(crate::specs::Tape::tape_state))]
impl MemTape {
    ghost use Rattle.qic_mem.specs.Tape.{tape_state, tape_means, is_refused, Fails, after_call};

    /// An empty drive with room for a cartridge of `room` segments per track, which it takes at
    /// once. `fails` has the numbers of the calls that are to fail, counted from 0 over all calls.
    /// A `renew` above `room` fails too. It keeps no record, and does not tell its stops.
    pub fn new(alloc: Global, room: u16, fails: Vec<u64>) -> Result<Self, NoMemory>
        ensures { IfOk result (λ tape. tape_state tape ≡ record {
          cartridge = None;
          size = None;
          room = room;
          plan = new_plan fails.items;
          outcome = Outcome.Old;
          log = None;
        }) }
    {
        Ok(MemTape {
            holder: Holder::new(alloc, room)?,
            plan: CallPlan::new(fails),
            outcome: Outcome::Old,
            log: None,
        })
    }

    /// The same, with a record of its calls but `info` and the reads, by which it tells its stops. It takes the
    /// room for `calls` of them at once; such a call fails too where the record is full.
    pub fn recorded(alloc: Global, room: u16, calls: u32, fails: Vec<u64>) -> Result<Self, NoMemory>
        ensures { IfOk result (λ tape. tape_state tape ≡ record {
          cartridge = None;
          size = None;
          room = room;
          plan = new_plan fails.items;
          outcome = Outcome.Old;
          log = Some (new_log calls);
        }) }
    {
        Ok(MemTape {
            holder: Holder::new(alloc, room)?,
            plan: CallPlan::new(fails),
            outcome: Outcome::Old,
            log: Some(TapeRecord::new(alloc, calls)?),
        })
    }

    /// Sets what each chosen failure from now on leaves; `Old` at first.
    pub fn set_outcome(&mut self, outcome: Outcome)
        ensures { tape_state self.new ≡ record (tape_state self.old) { outcome = outcome } }
    {
        self.outcome = outcome;
    }

    /// Whether the change finds no room in the record, or is a cartridge longer than the room.
    fn is_refused(&self, change: &TapeChange) -> bool
        ensures { result ≡ is_refused (tape_state self.now) (step_of change.now) }
    {
        is_full(&self.log) || self.holder.is_past(change)
    }

    /// Counts a call that makes a change, records it, and makes the change, or leaves what the failure is to leave.
    fn run(&mut self, change: TapeChange) -> Result<(), TapeFailed>
        requires { IsReached (tape_state self.old).size (step_of change) }
        ensures did { Does tape_means self.old self.new (step_of change ∷ []) result }
        ensures fails { IsErr result ↔ Fails (tape_state self.old) (step_of change) }
        ensures state { tape_state self.new
            ≡ after_call (tape_state self.old) (step_of change) (is_err result) }
    {
        let refused = self.is_refused(&change);
        let failed = refused || self.plan.is_next_chosen();
        self.plan.count(failed);
        if !failed {
            self.holder.make(&change);
            let end = End::Done;
            add_call(&mut self.log, Call { change, end });
            return Ok(());
        }
        let left = if refused { Outcome::Old } else { self.outcome };
        self.holder.fail(&change, left);
        let end = End::Failed(left);
        add_call(&mut self.log, Call { change, end });
        Err(TapeFailed)
    }
}

#[tactic(auto, unfolding(crate::specs::Tape::tape_state))]
impl Tape for MemTape {
    ghost use Rattle.qic_mem.specs.Tape.{tape_state, tape_means, Fails, after_call, after_info, after_read, tape-size_fits, tape-told_right, tape-left_now};

    ghost means = { tape_means };

    ghost size_fits = { tape-size_fits };

    ghost told_right = { tape-told_right };

    ghost left_now = { tape-left_now };

    fn info(&mut self) -> Result<Option<TapeInfo>, TapeFailed>
        ensures did { Does tape_means self.old self.new [] result }
        ensures info { IfOk result (λ info.
            IfSome (tape_means.told self.old) (λ held. info ≡ info_of held)) }
        ensures size { IfOk result (λ info.
            tape_means.size self.new ≡ option_map (λ i. i.segments_per_track) info) }
        ensures failed { OnErr result (tape_means.size self.new ≡ tape_means.size self.old) }

        // It fails exactly at its chosen numbers, and the whole state follows.
        ensures fails { IsErr result ↔ IsChosen (tape_state self.old).plan }
        ensures state { tape_state self.new ≡ after_info (tape_state self.old) (is_err result) }
    {
        if self.plan.begin() {
            return Err(TapeFailed);
        }
        Ok(self.holder.info())
    }

    fn read_sectors(
        &mut self,
        segment: u32,
        wanted: LostSet,
        into: &mut [Sector; 32],
    ) -> Result<SectorsRead, TapeFailed>
        requires { IsPlaceOf tape_means self.old segment 0 }
        ensures did { Does tape_means self.old self.new [] result }
        ensures reads { IfOk result (λ read. Tells tape_means self.old (λ c.
            ReadsSectors wanted read.good read.blank (view_at c segment) into.old into.new)) }
        ensures kept { IfOk result (λ read. KeepsOthers read.good into.old into.new) }
        ensures unchanged { OnErr result (into.new ≡ into.old) }
        ensures size { tape_means.size self.new ≡ tape_means.size self.old }

        ensures fails { IsErr result ↔ IsChosen (tape_state self.old).plan }
        ensures state { tape_state self.new ≡ after_read (tape_state self.old) (is_err result) }
    {
        if self.plan.begin() {
            return Err(TapeFailed);
        }
        Ok(self.holder.read_sectors(segment, wanted.mask(), into))
    }

    fn write_sectors(
        &mut self,
        segment: u32,
        written: LostSet,
        from: &[Sector; 32],
    ) -> Result<LostSet, TapeFailed>
        requires { IsPlaceOf tape_means self.old segment 0 }
        ensures did { Does tape_means self.old self.new
            (WriteSectors segment (chosen written from.now) ∷ []) result }
        ensures answer { IfOk result (λ blank. Tells tape_means self.old (λ c.
            AreBlank written blank (view_at c segment))) }
        ensures size { tape_means.size self.new ≡ tape_means.size self.old }

        // A call that changes the cartridge fails exactly at its chosen numbers and past the stated rooms, and the whole
        // state follows.
        ensures fails { IsErr result
            ↔ Fails (tape_state self.old) (WriteSectors segment (chosen written from.now)) }
        ensures state { tape_state self.new ≡ after_call (tape_state self.old)
            (WriteSectors segment (chosen written from.now)) (is_err result) }
    {
        let written = written.mask();
        let blank = self.holder.blank_ones(segment, written);
        self.run(TapeChange::WriteSectors(segment, written, *from))?;
        Ok(blank)
    }

    fn format_segment(&mut self, segment: u32) -> Result<(), TapeFailed>
        requires { IsPlaceOf tape_means self.old segment 0 }
        ensures did { Does tape_means self.old self.new (FormatSegment segment ∷ []) result }
        ensures size { tape_means.size self.new ≡ tape_means.size self.old }

        ensures fails { IsErr result ↔ Fails (tape_state self.old) (FormatSegment segment) }
        ensures state { tape_state self.new
            ≡ after_call (tape_state self.old) (FormatSegment segment) (is_err result) }
    {
        self.run(TapeChange::FormatSegment(segment))
    }

    fn set_referenced(&mut self) -> Result<(), TapeFailed>
        requires { IsSome (tape_means.size self.old) }
        ensures did { Does tape_means self.old self.new (SetReferenced ∷ []) result }
        ensures size { tape_means.size self.new ≡ tape_means.size self.old }

        ensures fails { IsErr result ↔ Fails (tape_state self.old) SetReferenced }
        ensures state { tape_state self.new
            ≡ after_call (tape_state self.old) SetReferenced (is_err result) }
    {
        self.run(TapeChange::SetReferenced)
    }

    fn set_protected(&mut self, on: bool) -> Result<(), TapeFailed>
        requires { IsSome (tape_means.size self.old) }
        ensures did { Does tape_means self.old self.new (SetProtected on ∷ []) result }
        ensures size { tape_means.size self.new ≡ tape_means.size self.old }

        ensures fails { IsErr result ↔ Fails (tape_state self.old) (SetProtected on) }
        ensures state { tape_state self.new
            ≡ after_call (tape_state self.old) (SetProtected on) (is_err result) }
    {
        self.run(TapeChange::SetProtected(on))
    }

    fn renew(&mut self, segments_per_track: u16) -> Result<(), TapeFailed>
        requires { IsLength segments_per_track }
        ensures did { Does tape_means self.old self.new (Renew segments_per_track ∷ []) result }
        ensures size { OnOk result (tape_means.size self.new ≡ Some segments_per_track) }
        ensures failed { OnErr result (tape_means.size self.new ≡ None) }

        ensures fails { IsErr result ↔ Fails (tape_state self.old) (Renew segments_per_track) }
        ensures state { tape_state self.new
            ≡ after_call (tape_state self.old) (Renew segments_per_track) (is_err result) }
    {
        self.run(TapeChange::Renew(segments_per_track))
    }

    fn wear(&mut self, segment: u32, sector: u8) -> Result<(), TapeFailed>
        requires { IsPlaceOf tape_means self.old segment sector }
        ensures did { Does tape_means self.old self.new (Wear segment sector ∷ []) result }
        ensures size { tape_means.size self.new ≡ tape_means.size self.old }

        ensures fails { IsErr result ↔ Fails (tape_state self.old) (Wear segment sector) }
        ensures state { tape_state self.new
            ≡ after_call (tape_state self.old) (Wear segment sector) (is_err result) }
    {
        self.run(TapeChange::Wear(segment, sector))
    }

    fn spoil(&mut self, segment: u32, sector: u8) -> Result<bool, TapeFailed>
        requires { IsPlaceOf tape_means self.old segment sector }
        ensures did { Does tape_means self.old self.new (Spoil segment sector ∷ []) result }
        ensures answer { IfOk result (λ answer. Tells tape_means self.old (λ c.
            answer ≡ spoil_answer (view_at c segment sector))) }
        ensures size { tape_means.size self.new ≡ tape_means.size self.old }

        ensures fails { IsErr result ↔ Fails (tape_state self.old) (Spoil segment sector) }
        ensures state { tape_state self.new
            ≡ after_call (tape_state self.old) (Spoil segment sector) (is_err result) }
    {
        let answer = self.holder.spoil_answer(segment, sector);
        self.run(TapeChange::Spoil(segment, sector))?;
        Ok(answer)
    }

    fn upgrade(&mut self) -> Result<u8, TapeFailed>
        requires { IsSome (tape_means.size self.old) }
        ensures did { Does tape_means self.old self.new (Upgrade ∷ []) result }
        ensures answer { IfOk result (λ version. Tells tape_means self.old (λ c. version ≡ c.version)) }
        ensures version { IfOk result (λ version. IsVersion version) }
        ensures size { OnOk result (tape_means.size self.new ≡ tape_means.size self.old) }
        ensures failed { OnErr result (tape_means.size self.new ≡ None) }

        // The layout is always the newest.
        ensures newest { IfOk result (λ version. version ≡ new_version) }
        ensures fails { IsErr result ↔ Fails (tape_state self.old) Upgrade }
        ensures state { tape_state self.new
            ≡ after_call (tape_state self.old) Upgrade (is_err result) }
    {
        let version = self.holder.version();
        self.run(TapeChange::Upgrade)?;
        Ok(version)
    }
}
