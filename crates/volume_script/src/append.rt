//! A volume of a script appended.

ghost use Rattle.std.specs.Prelude.{◌≡◌, ◌≢◌, ◌≤◌, ◌↔◌, true, Err, is_some};
ghost use Rattle.drive_spec.specs.Terms.{is_protected};
ghost use Rattle.command_spec.specs.declared.line.Line.TheVariants.{Append};
ghost use Rattle.volume_store.specs.Appending.{KeepsFormat, KeepsList};
ghost use Rattle.volume_store.specs.Mounting.{StoreFits};
ghost use Rattle.volume_script.specs.Items.{ItemEnds};
ghost use Rattle.volume_script.specs.Promised.{RanPromised};
ghost use Rattle.volume_script.specs.Refusing.{Refuses};

use crate::limited::Limited;
use crate::replies::{refusal_for, replied, write_refusal};
use drive_states::Unit;
use qic_base::{Name, Sink, Source, StoreFault, Tape, write_text};
use tape_script::skip;
use volume_store::{Appended, Store, appended_text};

/// What an append answered, and how many of the promised bytes it left in the source.
#[derive(Clone, Copy)]
pub struct Promised {
    pub answer: Result<Appended, StoreFault>,
    pub left: u32,
}

/// Appends a volume of just so many bytes of the source.
pub fn take_promised<T: Tape, S: Source>(
    store: &mut Store,
    unit: &mut Unit<T>,
    name: &Name,
    promised: u32,
    date: u32,
    source: &mut S,
) -> Promised
    requires fits { StoreFits T.means store.old unit.old }
    ensures ran { RanPromised T.means S.means unit.old.tape unit.new.tape source.old source.new
        store.old store.new name.now date promised result.left result.answer }
    ensures few { result.left ≤ promised }
    ensures mark { (result.answer ≡ Err StoreFault.Protected) ↔
        (is_protected unit.old.drive.deck ≡ true) }
    ensures list { KeepsList result.answer store.old store.new }
    ensures format { KeepsFormat store.old store.new }
    ensures fits { result.answer ≢ Err StoreFault.Tape → StoreFits T.means store.new unit.new }
    ensures kept { S.means.keeps source.old source.new }
    ensures tells { is_some (S.means.left source.new) ≡ is_some (S.means.left source.old) }
{
    let mut bytes = Limited {
        source,
        left: promised,
    };
    let answer = store.append(unit, name, date, Some(promised), &mut bytes);
    Promised {
        answer,
        left: bytes.left,
    }
}

/// Replies to a line that a fault of its append refuses, once the bytes that the append left are taken, too. Where the
/// source ends before them, `Short` tells all the bytes that the line promises, and all that were there. A fault that
/// ends the script is answered at once.
pub fn refuse<S: Source, K: Sink>(
    fault: StoreFault,
    promised: u32,
    left: u32,
    source: &mut S,
    sink: &mut K,
) -> Result<(), StoreFault>
    requires few { left ≤ promised }
    ensures refused { Refuses S.means K.means source.old source.new sink.old sink.new promised left fault
        result }
    ensures kept { S.means.keeps source.old source.new }
    ensures tells { is_some (S.means.left source.new) ≡ is_some (S.means.left source.old) }
{
    let Some(refusal) = refusal_for(fault) else {
        return Err(fault);
    };
    let skipped = skip(source, left)?;
    if skipped < left {
        let read = promised - (left - skipped);
        return Err(StoreFault::Short { promised, read });
    }
    replied(write_refusal(refusal, sink))
}

/// Appends a volume of the bytes behind its line, and prints its number, its length in bytes, and its first and its
/// last segment. Where it is refused its bytes are taken all the same, before the reply.
pub fn append<T: Tape, S: Source, K: Sink>(
    store: &mut Store,
    unit: &mut Unit<T>,
    name: &Name,
    promised: u32,
    date: u32,
    source: &mut S,
    sink: &mut K,
) -> Result<(), StoreFault>
    requires fits { StoreFits T.means store.old unit.old }
    ensures ends { ItemEnds T.means S.means K.means store.old store.new
        record { tape = unit.old.tape; source = source.old; sink = sink.old }
        record { tape = unit.new.tape; source = source.new; sink = sink.new }
        (Append name.now promised date) result }
    ensures fits { result ≢ Err StoreFault.Tape → StoreFits T.means store.new unit.new }
    ensures format { KeepsFormat store.old store.new }
    ensures kept { S.means.keeps source.old source.new }
    ensures tells { is_some (S.means.left source.new) ≡ is_some (S.means.left source.old) }
{
    let Promised { answer, left } = take_promised(store, unit, name, promised, date, source);
    match answer {
        Ok(appended) => replied(write_text(appended_text(&appended).bytes(), sink)),
        Err(fault) => refuse(fault, promised, left, source, sink),
    }
}
