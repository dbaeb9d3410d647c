//! The top call of a copy.

ghost use Rattle.std.specs.Prelude.{◌≡◌, map, string_bytes, true};
ghost use Rattle.command_spec.specs.CopyPromises.{CopyPromises};
ghost use Rattle.volume_copy.specs.Printing.{PrintsLines};
ghost use Rattle.volume_copy.specs.Runs.{CopyRuns, RunEnds, is_asked};

use crate::copying::{Source, copy_missing};
use crate::opening::{Rooms, open_both};
use command_spec::CopyStatus;
use drive_states::Unit;
use qic_base::{NoMemory, Sink, Tape};
use std::alloc::Global;

/// Copies the volumes of a cartridge that another one lacks behind those that it has, each with its name and date, and gives
/// the unit of the source back. It prints a line for each that was copied, and last how many the target has. The memory that
/// it takes it takes before it touches any of them.
pub fn run_copy<A: Tape, B: Tape, K: Sink>(
    alloc: Global,
    words: &Vec<String>,
    from: Unit<A>,
    to: &mut Unit<B>,
    sink: &mut K,
) -> (CopyStatus, Unit<A>)
    ensures promises { CopyPromises A.means B.means K.means (map string_bytes words.now.items)
        record { from = from.tape; to = to.old.tape; sink = sink.old }
        record { from = result.1.tape; to = to.new.tape; sink = sink.new } result.0 }
    ensures lines { PrintsLines A.means B.means K.means
        record { from = from.tape; to = to.old.tape; sink = sink.old }
        record { from = result.1.tape; to = to.new.tape; sink = sink.new } result.0 }
    ensures runs { CopyRuns A.means B.means K.means
        record { from = from; to = to.old; sink = sink.old }
        record { from = result.1; to = to.new; sink = sink.new } result.0 }
{
    if !words.is_empty() {
        return (CopyStatus::Usage, from);
    }
    match Rooms::new(alloc) {
        Ok(rooms) => copy_in(rooms, from, to, sink),
        Err(NoMemory) => (CopyStatus::NoMemory, from),
    }
}

/// Makes the copy in the working objects that are handed to it.
fn copy_in<A: Tape, B: Tape, K: Sink>(
    rooms: Rooms,
    mut from: Unit<A>,
    to: &mut Unit<B>,
    sink: &mut K,
) -> (CopyStatus, Unit<A>)
    ensures runs { RunEnds A.means B.means K.means
        record { from = from; to = to.old; sink = sink.old }
        record { from = result.1; to = to.new; sink = sink.new } result.0 }
    ensures asked { is_asked result.0 ≡ true }
{
    let mut mounted = match open_both(rooms, &mut from, to) {
        Ok(mounted) => mounted,
        Err(status) => return (status, from),
    };
    let source = Source {
        store: mounted.from,
        unit: from,
    };
    let (status, source) = copy_missing(source, &mut mounted.to, to, sink);
    (status, source.unit)
}
