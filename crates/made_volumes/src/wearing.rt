//! Sectors of the made volumes worn.

ghost use Rattle.std.specs.Prelude.{◌≡◌, ◌≢◌, ◌<◌, ◌≤◌, ℕ, [], ◌∷◌, length, drop, slice_get, Err, IfSome};
ghost use Rattle.qic_base.specs.Alone.{around, no_sink};
ghost use Rattle.cartridge_spec.specs.Volumes.{carrying, carrying_segments};
ghost use Rattle.volume_store.specs.Mounting.{StoreFits};
ghost use Rattle.command_spec.specs.Make.{WearSector, wearing_in, wearing_volumes};
ghost use Rattle.command_laws.specs.MadeTerms.{first_two, wearing};
ghost use Rattle.made_volumes.specs.Runs.{RunEnds, NeverFull};
ghost use Rattle.qic_base.specs.declared.store_fault.StoreFault.TheVariants.{Tape as tape_fault};

use bad_sector_map::FEWEST;
use drive_states::{HandFault, Unit};
use qic_base::{LostSet, StoreFault, Tape};
use volume_store::Store;

/// Sectors are worn in each segment whose number is a multiple of this.
const EACH: u32 = 100;

/// How many sectors are worn in such a segment.
const WORN: u32 = 2;

/// Wears a sector of a segment.
fn wear_sector<T: Tape>(
    store: &mut Store,
    unit: &mut Unit<T>,
    segment: u32,
    sector: u32,
) -> Result<(), StoreFault>
    requires fits { StoreFits T.means store.old unit.old }
    requires segment { segment < length store.old.words }
    requires sector { sector < 32 }
    ensures ends { (seed : ℕ) → RunEnds T.means no_sink seed store.old.words store.old.entries
        (WearSector segment sector ∷ []) (around unit.old.tape tt) (around unit.new.tape tt) result }
    ensures store { store.new ≡ store.old }
    ensures room { NeverFull result }
    ensures fits { result ≢ Err tape_fault → StoreFits T.means store.new unit.new }
{
    match store.wear(unit, segment, sector)? {
        Ok(()) => Ok(()),
        Err(HandFault::NoCartridge | HandFault::BadPlace | HandFault::NotBlank) => {
            unreachable!("a sector of the mounted cartridge is worn whatever it holds")
        }
    }
}

/// Wears the first two usable sectors of a segment.
fn wear_first_two<T: Tape>(
    store: &mut Store,
    unit: &mut Unit<T>,
    segment: u32,
) -> Result<(), StoreFault>
    requires fits { StoreFits T.means store.old unit.old }
    requires segment { segment < length store.old.words }
    ensures ends { (seed : ℕ) → RunEnds T.means no_sink seed store.old.words store.old.entries
        (wearing segment (first_two store.old.words segment))
        (around unit.old.tape tt) (around unit.new.tape tt) result }
    ensures store { store.new ≡ store.old }
    ensures room { NeverFull result }
    ensures fits { result ≢ Err tape_fault → StoreFits T.means store.new unit.new }
{
    let usable = LostSet::from_mask(store.usable(segment));
    let mut worn = 0;
    for sector in 0..32u8 {
        if worn < WORN && usable.contains(sector) {
            wear_sector(store, unit, segment, u32::from(sector))?;
            worn += 1;
        }
    }
    Ok(())
}

/// Wears the first two usable sectors of a segment that carries data, if its number is a multiple of 100.
fn wear_if_due<T: Tape>(
    store: &mut Store,
    unit: &mut Unit<T>,
    segment: u32,
) -> Result<(), StoreFault>
    requires fits { StoreFits T.means store.old unit.old }
    requires segment { segment < length store.old.words }
    ensures ends { (seed : ℕ) → RunEnds T.means no_sink seed store.old.words store.old.entries
        (wearing_in store.old.words (carrying store.old.words segment segment))
        (around unit.old.tape tt) (around unit.new.tape tt) result }
    ensures store { store.new ≡ store.old }
    ensures room { NeverFull result }
    ensures fits { result ≢ Err tape_fault → StoreFits T.means store.new unit.new }
{
    if segment % EACH != 0 {
        return Ok(());
    }
    if LostSet::from_mask(store.usable(segment)).count() < FEWEST {
        return Ok(());
    }
    wear_first_two(store, unit, segment)
}

/// Wears sectors of a volume, counted from 0.
fn wear_volume<T: Tape>(store: &mut Store, unit: &mut Unit<T>, index: u32) -> Result<(), StoreFault>
    requires fits { StoreFits T.means store.old unit.old }
    requires index { index < length store.old.entries }
    ensures ends { (seed : ℕ) → IfSome (slice_get store.old.entries index) (λ e.
        RunEnds T.means no_sink seed store.old.words store.old.entries
        (wearing_in store.old.words (carrying_segments store.old.words e))
        (around unit.old.tape tt) (around unit.new.tape tt) result) }
    ensures store { store.new ≡ store.old }
    ensures room { NeverFull result }
    ensures fits { result ≢ Err tape_fault → StoreFits T.means store.new unit.new }
{
    let entry = store.entry(index);
    let (start, end) = (entry.start, entry.end);
    for segment in u32::from(start)..u32::from(end) + 1 {
        wear_if_due(store, unit, segment)?;
    }
    Ok(())
}

/// Wears the first two usable sectors of each carrying segment whose number is a multiple of 100, in the volumes from
/// one on, counted from 0.
pub(crate) fn wear_volumes<T: Tape>(
    store: &mut Store,
    unit: &mut Unit<T>,
    first: u32,
) -> Result<(), StoreFault>
    requires fits { StoreFits T.means store.old unit.old }
    requires first { first ≤ length store.old.entries }
    ensures ends { (seed : ℕ) → RunEnds T.means no_sink seed store.old.words store.old.entries
        (wearing_volumes store.old.words (drop first store.old.entries))
        (around unit.old.tape tt) (around unit.new.tape tt) result }
    ensures store { store.new ≡ store.old }
    ensures room { NeverFull result }
    ensures fits { result ≢ Err tape_fault → StoreFits T.means store.new unit.new }
{
    for index in first..store.count() {
        wear_volume(store, unit, index)?;
    }
    Ok(())
}
