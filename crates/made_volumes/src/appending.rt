//! Made volumes appended.

ghost use Rattle.std.specs.Prelude.{◌≡◌, ◌≢◌, ◌≤◌, [], ◌∷◌, Err};
ghost use Rattle.qic_base.specs.Alone.{around, no_sink};
ghost use Rattle.command_spec.specs.Make.{made_length, AppendMade, appending, made_name};
ghost use Rattle.volume_store.specs.Appending.{KeepsFormat};
ghost use Rattle.volume_store.specs.Mounting.{StoreFits};
ghost use Rattle.command_laws.specs.MadeTerms.{made_entry};
ghost use Rattle.made_volumes.specs.Runs.{RunEnds, IsListed, AreListed};
ghost use Rattle.qic_base.specs.declared.store_fault.StoreFault.TheVariants.{Tape as tape_fault};

use drive_states::Unit;
use qic_base::{Name, StoreFault, Tape};
use tape_script::{Made, TextLine};
use volume_store::Store;

/// The name of a made volume.
fn made_name(volume: u32) -> Name
    ensures { result ≡ made_name volume }
{
    let mut line = TextLine::new();
    line.push_text(b"made-");
    line.push_number(u64::from(volume));
    let mut bytes = [b' '; 44];
    let text = line.bytes();
    bytes[..text.len()].copy_from_slice(text);
    Name::from_bytes(&bytes)
}

/// The number of bytes of a made volume.
fn made_length(seed: u32, volume: u32) -> u32
    ensures { result ≡ made_length seed volume }
{
    let steps = (u64::from(seed) * 37 + u64::from(volume) * 101) % 20000;
    1000 * (1 + steps as u32)
}

/// Appends a made volume behind the others.
fn append_volume<T: Tape>(
    store: &mut Store,
    unit: &mut Unit<T>,
    seed: u32,
    volume: u32,
) -> Result<(), StoreFault>
    requires fits { StoreFits T.means store.old unit.old }
    ensures ends { RunEnds T.means no_sink seed store.old.words store.old.entries
        (AppendMade volume ∷ []) (around unit.old.tape tt) (around unit.new.tape tt) result }
    ensures list { IsListed result store.old.entries store.new.entries
        (made_entry seed store.old.words store.old.entries volume) }
    ensures format { KeepsFormat store.old store.new }
    ensures fits { result ≢ Err tape_fault → StoreFits T.means store.new unit.new }
{
    let name = made_name(volume);
    let promised = made_length(seed, volume);
    let mut bytes = Made::new(seed, volume);
    store.append(unit, &name, 0, Some(promised), &mut bytes)?;
    Ok(())
}

/// Appends so many made volumes behind the others, in order. Each refusal leaves those before it.
pub(crate) fn append_volumes<T: Tape>(
    store: &mut Store,
    unit: &mut Unit<T>,
    seed: u32,
    count: u32,
) -> Result<(), StoreFault>
    requires fits { StoreFits T.means store.old unit.old }
    requires few { count ≤ 200 }
    ensures ends { RunEnds T.means no_sink seed store.old.words store.old.entries
        (appending 1 count) (around unit.old.tape tt) (around unit.new.tape tt) result }
    ensures list { AreListed result seed count store.old store.new }
    ensures format { KeepsFormat store.old store.new }
    ensures fits { result ≢ Err tape_fault → StoreFits T.means store.new unit.new }
{
    for volume in 1..count + 1 {
        append_volume(store, unit, seed, volume)?;
    }
    Ok(())
}
