//! A run of `make`.

ghost use Rattle.std.specs.Prelude.{◌≢◌, ◌≤◌, ℕ, [], ◌∷◌, Err};
ghost use Rattle.qic_base.specs.Alone.{around};
ghost use Rattle.volume_store.specs.Appending.{KeepsFormat};
ghost use Rattle.volume_store.specs.Mounting.{StoreFits, KeepsStore};
ghost use Rattle.command_spec.specs.Make.{ScrubAll};
ghost use Rattle.made_volumes.specs.Runs.{RunEnds, MakeEnds, AreListed, NeverFull};
ghost use Rattle.qic_base.specs.declared.store_fault.StoreFault.TheVariants.{Tape as tape_fault};

use crate::appending::append_volumes;
use crate::summing::sum_volumes;
use crate::wearing::wear_volumes;
use drive_states::Unit;
use qic_base::{Sink, StoreFault, Tape};
use volume_store::Store;

/// Scrubs the cartridge.
fn scrub<T: Tape, K: Sink>(
    store: &mut Store,
    unit: &mut Unit<T>,
    sink: &mut K,
) -> Result<(), StoreFault>
    requires fits { StoreFits T.means store.old unit.old }
    ensures ends { (seed : ℕ) → RunEnds T.means K.means seed store.old.words store.old.entries
        (ScrubAll ∷ []) (around unit.old.tape sink.old) (around unit.new.tape sink.new) result }
    ensures store { KeepsStore store.old store.new }
    ensures room { NeverFull result }
    ensures fits { result ≢ Err tape_fault → StoreFits T.means store.new unit.new }
{
    store.scrub(unit, sink)?;
    Ok(())
}

/// Makes so many volumes from a seed and appends them, each with its number of bytes promised; wears the first two
/// usable sectors of each of their carrying segments whose number is a multiple of 100; scrubs the cartridge; and
/// restores the made volumes, each of which prints a line with its number in the list, its bytes and their sum modulo
/// 2^32. The first refusal of a step ends the run; the volumes that were appended before it stay.
pub fn make_volumes<T: Tape, K: Sink>(
    store: &mut Store,
    unit: &mut Unit<T>,
    seed: u32,
    count: u32,
    sink: &mut K,
) -> Result<(), StoreFault>
    requires fits { StoreFits T.means store.old unit.old }
    requires few { count ≤ 200 }
    ensures ends { MakeEnds T.means K.means store.old seed count
        (around unit.old.tape sink.old) (around unit.new.tape sink.new) result }
    ensures list { AreListed result seed count store.old store.new }
    ensures format { KeepsFormat store.old store.new }
    ensures fits { result ≢ Err tape_fault → StoreFits T.means store.new unit.new }
{
    let first = store.count();
    append_volumes(store, unit, seed, count)?;
    wear_volumes(store, unit, first)?;
    scrub(store, unit, sink)?;
    sum_volumes(store, unit, first, sink)
}
