//! A volume's bytes, read piece by piece.

ghost use Rattle.std.specs.Prelude.{◌≡◌, ◌↔◌, ◌+◌, ◌*◌, ◌<◌, ◌≤◌, true, false, None, Ok, length, take, drop, IfOk, IfSome, IsSomeAnd, OnErr, is_some};
ghost use Rattle.std.specs.Option.{option_map};
ghost use Rattle.qic_base.specs.Cause.{HasCause};
ghost use Rattle.qic_base.specs.SourceCalls.{Gives, HasEnded};
ghost use Rattle.qic_base.specs.TapeCalls.{Tells};
ghost use Rattle.command_spec.specs.Copying.{GivenBytes};
ghost use Rattle.volume_store.specs.Mounting.{StoreFits};
ghost use Rattle.volume_copy.specs.Source.{IsSoundSource, KeepsVolume, count_after, keeps_itself, keeps_on, new_source, pieces_of_number, source_means, unread_in};

use drive_states::Unit;
use qic_base::{Sector, Source, SourceFailed, StoreFault, Tape};
use std::marker::Model;
use volume_store::Store;

/// The bytes of one volume of a mounted cartridge, read segment by segment as they are asked for. A read that comes to a
/// segment that doesn't read fails, and each behind it fails at once: the tape is not asked again. It is only read.
#[derive(Drop)]
pub struct VolumeSource<T: Tape> {
    store: Store,
    unit: Unit<T>,
    number: u32,
    // the part that is read next
    next: u32,
    // how many bytes of the volume the part that was read last holds, and how many of them were given
    held: u32,
    given: u32,
    refusals: u64,
    fault: Option<StoreFault>,
}

impl<T: Tape> Model for VolumeSource<T> {
    ghost use Rattle.volume_copy.specs.Source.{SourceView, IsSoundSource, IsHeld, unread_in};

    ghost Value = { SourceView T };

    ghost view = { λ s. record {
      store = s.store;
      unit = s.unit;
      number = s.number;
      done = s.next;
      unread = unread_in s.store.part s.held s.given;
      faults = s.refusals;
      fault = s.fault;
    } };

    ghost invariant = { λ s. IsHeld s.store.part s.held s.given
        × IsSoundSource T.means (record {
          store = s.store;
          unit = s.unit;
          number = s.number;
          done = s.next;
          unread = unread_in s.store.part s.held s.given;
          faults = s.refusals;
          fault = s.fault;
        }) };
}

/// Copies as many as fit of the bytes from `given` to `held` of the sectors.
fn copy_part(sectors: &[Sector], held: u32, given: u32, into: &mut [u8]) -> u32
    requires some { given < held }
    requires there { held ≤ 1024 * length sectors.now }
    requires room { 0 < length into.old }
    ensures some { 0 < result }
    ensures fits { result ≤ length into.old }
    ensures within { given + result ≤ held }
    ensures long { result ≤ length (unread_in sectors.now held given) }
    ensures front { take result into.new ≡ take result (unread_in sectors.now held given) }
{
    let bytes = &sectors.as_flattened()[given as usize..held as usize];
    let count = into.len().min(bytes.len());
    into[..count].copy_from_slice(&bytes[..count]);
    count as u32
}

impl<T: Tape> VolumeSource<T> {
    /// The bytes of the volume with this number, counted from 1.
    pub fn new(store: Store, unit: Unit<T>, number: u32) -> VolumeSource<T>
        requires fits { StoreFits T.means store unit }
        requires numbered { 0 < number }
        requires there { number ≤ length store.entries }
        ensures is { result ≡ new_source store unit number }
        ensures sound { IsSoundSource T.means result }
        ensures given { Tells T.means unit.tape (λ c. IsSomeAnd ((source_means T.means).left result)
            (GivenBytes c store.words (pieces_of_number store number))) }
        ensures tells { is_some ((source_means T.means).left result) ≡ is_some (T.means.told unit.tape) }
    {
        VolumeSource {
            store,
            unit,
            number,
            next: 0,
            held: 0,
            given: 0,
            refusals: 0,
            fault: None,
        }
    }

    /// Gives the store and the unit back.
    pub fn into_parts(self) -> (Store, Unit<T>)
        ensures store { result.0 ≡ self.store }
        ensures unit { result.1 ≡ self.unit }
        ensures sound { IsSoundSource T.means self }
    {
        let VolumeSource { store, unit, .. } = self;
        (store, unit)
    }

    /// Why a read failed, the first one that did; `None` where none did.
    pub fn fault(&self) -> Option<StoreFault>
        ensures is { result ≡ self.now.fault }
        ensures counted { (result ≡ None) ↔ (self.now.faults ≡ 0) }
    {
        self.fault
    }

    /// Reads the next part where all bytes of the last one were given. The answer is whether there are bytes to give.
    fn fill(&mut self) -> Result<bool, SourceFailed>
        ensures kept { KeepsVolume T.means self.old self.new }
        ensures left { (source_means T.means).left self.new ≡ (source_means T.means).left self.old }
        ensures some { result ≡ Ok true → 0 < length self.new.unread }
        ensures ended { result ≡ Ok false → HasEnded (source_means T.means) self.new }
        ensures count { self.new.faults ≡ count_after self.old.faults result }
        ensures later { self.old.faults ≤ self.new.faults }
    {
        if self.given < self.held {
            return Ok(true);
        }
        if self.fault.is_some() {
            self.refusals = self.refusals.saturating_add(1);
            return Err(SourceFailed);
        }
        match self.store.part(&mut self.unit, self.number, self.next) {
            Ok(Some(bytes)) => {
                self.held = bytes;
                self.given = 0;
                self.next += 1;
                Ok(true)
            }
            Ok(None) => Ok(false),
            Err(fault) => {
                self.fault = Some(fault);
                self.refusals = self.refusals.saturating_add(1);
                Err(SourceFailed)
            }
        }
    }

    /// Gives as many bytes of the last part as fit.
    fn give(&mut self, into: &mut [u8]) -> u32
        requires some { 0 < length self.old.unread }
        requires room { 0 < length into.old }
        ensures some { 0 < result }
        ensures fits { result ≤ length into.old }
        ensures long { result ≤ length self.old.unread }
        ensures front { take result into.new ≡ take result self.old.unread }
        ensures is { self.new ≡ record self.old { unread = drop result self.old.unread } }
    {
        let count = copy_part(self.store.part_data(), self.held, self.given, into);
        self.given += count;
        count
    }
}

impl<T: Tape> Source for VolumeSource<T> {
    ghost means = { source_means T.means };

    ghost keeps_itself = { keeps_itself T.means };

    ghost keeps_on = { keeps_on T.means };

    fn read(&mut self, into: &mut [u8]) -> Result<usize, SourceFailed>
        requires { 0 < length into.old }
        ensures within { IfOk result (λ n. n ≤ length into.old) }
        ensures gives { IfOk result (λ n. IfSome ((source_means T.means).left self.old) (λ bytes. Gives bytes into.new n)) }
        ensures left { IfOk result (λ n. (source_means T.means).left self.new
            ≡ option_map (drop n) ((source_means T.means).left self.old)) }
        ensures failed { OnErr result ((source_means T.means).left self.new ≡ (source_means T.means).left self.old) }
        ensures kept { KeepsVolume T.means self.old self.new }
        ensures cause { HasCause self.old.faults self.new.faults result }
        // The count rises just where the read failed.
        ensures count { self.new.faults ≡ count_after self.old.faults result }
    {
        match self.fill() {
            Ok(true) => Ok(self.give(into) as usize),
            Ok(false) => Ok(0),
            Err(failed) => Err(failed),
        }
    }
}
