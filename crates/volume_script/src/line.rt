//! A line that may be an item.

ghost use Rattle.std.specs.Prelude.{◌≡◌, ◌≢◌, ◌≤◌, None, Some, Err, IfOk, IfSome, is_some};
ghost use Rattle.command_spec.specs.Input.{most_items, promised};
ghost use Rattle.volume_store.specs.Appending.{KeepsFormat};
ghost use Rattle.volume_store.specs.Mounting.{StoreFits};
ghost use Rattle.volume_script.specs.Heard.{Hears, longest, status_behind};

use crate::item::carry_out;
use command_spec::Status;
use drive_states::Unit;
use qic_base::{Sink, Source, SourceFailed, StoreFault, Tape};
use tape_script::{Line, LineRead, read_line};
use volume_store::Store;

/// The number of bytes that follow a line at once.
fn promised(line: &Line) -> u32
    ensures bytes { result ≡ promised line.now }
    ensures few { result ≤ 4294967295 }
{
    match line {
        Line::Append { length, .. } => *length,
        Line::List | Line::Restore { .. } | Line::Scrub | Line::Lose { .. } | Line::End => 0,
    }
}

/// How a fault ends the script, at a line of this number that so many bytes come before.
fn status_behind(fault: StoreFault, line: u32, place: u64) -> Status
    requires ends { status_behind fault line place ≢ None }
    ensures { Some result ≡ status_behind fault line place }
{
    match fault {
        StoreFault::Short { .. } => Status::ScriptFault { line, place },
        StoreFault::TableMismatch => Status::TableMismatch,
        StoreFault::Source => Status::SourceFault,
        StoreFault::Sink => Status::SinkFault,
        StoreFault::Tape => Status::TapeFault,
        StoreFault::NotFormatted
        | StoreFault::Foreign { .. }
        | StoreFault::Full { .. }
        | StoreFault::NoVolume { .. }
        | StoreFault::Lost { .. }
        | StoreFault::Mismatch { .. }
        | StoreFault::Protected => unreachable!("a line that is refused has its reply"),
    }
}

/// Reads a line and carries it out with what follows it: the number of its bytes and of those, or none where the input
/// is over. `line` is the line's number and `place` the number of bytes before it.
pub fn carry_out_line<T: Tape, S: Source, K: Sink>(
    store: &mut Store,
    unit: &mut Unit<T>,
    source: &mut S,
    sink: &mut K,
    buffer: &mut [u8; 128],
    line: u32,
    place: u64,
) -> Result<Option<u64>, Status>
    requires fits { StoreFits T.means store.old unit.old }
    requires within { line ≤ most_items }
    ensures hears { Hears T.means S.means K.means store.old store.new
        record { tape = unit.old.tape; source = source.old; sink = sink.old }
        record { tape = unit.new.tape; source = source.new; sink = sink.new } line place result }
    ensures few { IfOk result (λ read. IfSome read (λ n. n ≤ longest)) }
    ensures fits { result ≢ Err Status.TapeFault → StoreFits T.means store.new unit.new }
    ensures format { KeepsFormat store.old store.new }
    ensures kept { S.means.keeps source.old source.new }
    ensures tells { is_some (S.means.left source.new) ≡ is_some (S.means.left source.old) }
{
    match read_line(source, buffer) {
        Ok(LineRead::End) => Ok(None),
        Ok(
            LineRead::Line {
                line: Line::End,
                ..
            },
        ) => Ok(None),
        Ok(LineRead::Line { line: asked, read }) => {
            match carry_out(store, unit, &asked, source, sink) {
                Ok(()) => Ok(Some(u64::from(read) + u64::from(promised(&asked)))),
                Err(fault) => Err(status_behind(fault, line, place)),
            }
        }
        Ok(LineRead::Bad { .. }) => Err(Status::ScriptFault { line, place }),
        Err(SourceFailed) => Err(Status::SourceFault),
    }
}
