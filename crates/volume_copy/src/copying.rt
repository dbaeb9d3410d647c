//! The volumes that the target lacks, copied one after the other.

ghost use Rattle.std.specs.Prelude.{◌≡◌, ◌<◌, ◌≤◌, length, true};
ghost use Rattle.cartridge_spec.specs.Formatting.{IsLabel};
ghost use Rattle.volume_copy.specs.Runs.{CopiesOne, MissingEnds, PrintsCount, append_status, tells_why};
ghost use Rattle.volume_store.specs.Mounting.{StoreFits};

use crate::source::VolumeSource;
use command_spec::CopyStatus;
use drive_states::Unit;
use qic_base::{Name, Sink, SinkFailed, StoreFault, Tape, write_text};
use tape_script::{number_text, place_text};
use volume_store::Store;

/// The source of a copy: a mounted cartridge with the unit that drives it.
#[derive(Drop)]
pub struct Source<T: Tape> {
    pub store: Store,
    pub unit: Unit<T>,
}

/// Why an append of the source's bytes came to nothing: what the source was refused for, where that broke it off, and else
/// the target's own refusal.
fn append_status(fault: StoreFault, refused: Option<StoreFault>) -> CopyStatus
    requires { tells_why fault refused ≡ true }
    ensures { result ≡ append_status fault refused }
{
    match fault {
        StoreFault::Source => match refused {
            Some(fault) => CopyStatus::From { fault },
            None => unreachable!("a source that fails tells why"),
        },
        fault => CopyStatus::To { fault },
    }
}

/// States that a name is 44 bytes, and does nothing.
fn is_label(name: &Name)
    ensures { IsLabel name.now }
{
    is_label_text(name.bytes());
}

fn is_label_text(text: &[u8; 44])
    ensures { IsLabel text.now }
{
    let _bytes = text.iter();
}

/// Copies one volume, counted from 1, behind those of the target, with its name and date and with its length promised. The
/// answer is its length in bytes.
fn copy_volume<A: Tape, B: Tape>(
    from: Source<A>,
    number: u32,
    store: &mut Store,
    unit: &mut Unit<B>,
) -> (Result<u64, CopyStatus>, Source<A>)
    requires source { StoreFits A.means from.store from.unit }
    requires target { StoreFits B.means store.old unit.old }
    requires numbered { 0 < number }
    requires there { number ≤ length from.store.entries }
    ensures { CopiesOne A.means B.means number
        record { store = from.store; unit = from.unit } record { store = result.1.store; unit = result.1.unit }
        record { store = store.old; unit = unit.old } record { store = store.new; unit = unit.new } result.0 }
{
    let entry = from.store.entry(number - 1);
    let (name, date) = (entry.name, entry.date);
    is_label(&name);
    let length = from.store.length(number - 1) as u32;
    let mut bytes = VolumeSource::new(from.store, from.unit, number);
    let copied = match store.append(unit, &name, date, Some(length), &mut bytes) {
        Ok(appended) => Ok(appended.bytes),
        Err(fault) => Err(append_status(fault, bytes.fault())),
    };
    let (store, unit) = bytes.into_parts();
    (copied, Source { store, unit })
}

/// Copies the volumes that the target lacks, and prints a line for each. The first that is refused ends it; those before it
/// stay.
pub fn copy_missing<A: Tape, B: Tape, K: Sink>(
    mut from: Source<A>,
    store: &mut Store,
    unit: &mut Unit<B>,
    sink: &mut K,
) -> (CopyStatus, Source<A>)
    requires source { StoreFits A.means from.store from.unit }
    requires target { StoreFits B.means store.old unit.old }
    requires few { length store.old.entries ≤ length from.store.entries }
    ensures { MissingEnds A.means B.means K.means
        record {
          from = record { store = from.store; unit = from.unit };
          to = record { store = store.old; unit = unit.old };
          sink = sink.old;
        }
        record {
          from = record { store = result.1.store; unit = result.1.unit };
          to = record { store = store.new; unit = unit.new };
          sink = sink.new;
        } result.0 }
{
    while store.count() < from.store.count() {
        let number = store.count() + 1;
        let (copied, back) = copy_volume(from, number, store, unit);
        from = back;
        let bytes = match copied {
            Ok(bytes) => bytes,
            Err(status) => return (status, from),
        };
        let line = place_text(b"copied", u64::from(number), bytes);
        if let Err(SinkFailed) = write_text(line.bytes(), sink) {
            return (CopyStatus::SinkFault, from);
        }
    }
    (print_count(store.count(), sink), from)
}

/// Prints how many volumes there are.
fn print_count<K: Sink>(count: u32, sink: &mut K) -> CopyStatus
    ensures { PrintsCount K.means sink.old sink.new count result }
{
    match write_text(number_text(b"volumes", u64::from(count)).bytes(), sink) {
        Ok(()) => CopyStatus::Done,
        Err(SinkFailed) => CopyStatus::SinkFault,
    }
}
