//! Volumes restored and summed.

ghost use Rattle.std.specs.Prelude.{◌≡◌, ◌≢◌, ◌-◌, ◌+◌, ◌≤◌, ℕ, [], ◌∷◌, length, Err};
ghost use Rattle.qic_base.specs.Alone.{around};
ghost use Rattle.volume_store.specs.Mounting.{StoreFits, KeepsStore};
ghost use Rattle.command_spec.specs.Make.{SumVolume, summing, sum_line};
ghost use Rattle.made_volumes.specs.Runs.{RunEnds, NeverFull};
ghost use Rattle.qic_base.specs.declared.store_fault.StoreFault.TheVariants.{Tape as tape_fault};

use drive_states::Unit;
use qic_base::{Sink, StoreFault, Tape, write_text};
use tape_script::{Summed, TextLine};
use volume_store::{Form, Store};

#[tactic(auto, unfolding(command_spec::specs::Make::sum_line))]
fn sum_text(number: u32, bytes: u64, total: u32) -> TextLine
    ensures { result ≡ sum_line number bytes total }
{
    let mut line = TextLine::new();
    line.push_text(b"volume ");
    line.push_number(u64::from(number));
    line.push_text(b" ");
    line.push_number(bytes);
    line.push_text(b" ");
    line.push_number(u64::from(total));
    line.push_text(b"\n");
    line
}

/// Restores a volume, counted from 1, and prints the line of its sum.
fn sum_volume<T: Tape, K: Sink>(
    store: &mut Store,
    unit: &mut Unit<T>,
    number: u32,
    sink: &mut K,
) -> Result<(), StoreFault>
    requires fits { StoreFits T.means store.old unit.old }
    requires some { 1 ≤ number }
    requires within { number ≤ length store.old.entries }
    ensures ends { (seed : ℕ) → RunEnds T.means K.means seed store.old.words store.old.entries
        (SumVolume number ∷ []) (around unit.old.tape sink.old) (around unit.new.tape sink.new) result }
    ensures store { KeepsStore store.old store.new }
    ensures room { NeverFull result }
    ensures fits { result ≢ Err tape_fault → StoreFits T.means store.new unit.new }
{
    let mut summed = Summed::new();
    let bytes = store.restore(unit, number, Form::Alone, &mut summed)?;
    write_text(sum_text(number, bytes, summed.sum()).bytes(), sink)?;
    Ok(())
}

/// Restores the volumes behind the first ones, and prints the line of each one's sum.
pub(crate) fn sum_volumes<T: Tape, K: Sink>(
    store: &mut Store,
    unit: &mut Unit<T>,
    first: u32,
    sink: &mut K,
) -> Result<(), StoreFault>
    requires fits { StoreFits T.means store.old unit.old }
    requires first { first ≤ length store.old.entries }
    ensures ends { (seed : ℕ) → RunEnds T.means K.means seed store.old.words store.old.entries
        (summing (first + 1) (length store.old.entries - first))
        (around unit.old.tape sink.old) (around unit.new.tape sink.new) result }
    ensures store { KeepsStore store.old store.new }
    ensures room { NeverFull result }
    ensures fits { result ≢ Err tape_fault → StoreFits T.means store.new unit.new }
{
    let end = store.count() + 1;
    for number in first + 1..end {
        sum_volume(store, unit, number, sink)?;
    }
    Ok(())
}
