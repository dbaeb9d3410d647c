//! The replies that only a script has.

ghost use Rattle.std.specs.Prelude.{◌≡◌};
ghost use Rattle.qic_base.specs.SinkCalls.{Writes};
ghost use Rattle.command_spec.specs.Script.{no_volume_line, refusal_line};
ghost use Rattle.command_laws.specs.ScriptTerms.{restored_line};
ghost use Rattle.volume_script.specs.Refusing.{RepliesTo, refusal_of, replied_so};

use command_spec::Refusal;
use qic_base::{Sink, SinkFailed, StoreFault, write_text};
use tape_script::{TextLine, number_text, place_text};

#[tactic(auto, unfolding(command_spec::specs::Script::no_volume_line))]
fn no_volume_text(number: u32, count: u32) -> TextLine
    ensures { result ≡ no_volume_line number count }
{
    let mut line = TextLine::new();
    line.push_text(b"refused no volume ");
    line.push_number(u64::from(number));
    line.push_text(b" of ");
    line.push_number(u64::from(count));
    line.push_text(b"\n");
    line
}

/// Writes the reply to a line that is refused.
pub fn write_refusal<K: Sink>(refusal: Refusal, sink: &mut K) -> Result<(), SinkFailed>
    ensures { Writes K.means sink.old sink.new (refusal_line refusal) result }
{
    match refusal {
        Refusal::Protected => write_text(b"refused protected\n", sink),
        Refusal::Full { need, have } => write_text(
            place_text(b"refused full", need, have).bytes(),
            sink,
        ),
        Refusal::NoVolume { number, count } => write_text(
            no_volume_text(number, count).bytes(),
            sink,
        ),
        Refusal::Lost { segment, lost } => write_text(
            place_text(b"refused lost", u64::from(segment), u64::from(lost)).bytes(),
            sink,
        ),
        Refusal::Mismatch { segment } => write_text(
            number_text(b"refused mismatch", u64::from(segment)).bytes(),
            sink,
        ),
        Refusal::Place { segment, sector } => write_text(
            place_text(b"refused place", u64::from(segment), u64::from(sector)).bytes(),
            sink,
        ),
    }
}

/// Writes the reply to a volume that was given back.
pub fn write_restored<K: Sink>(number: u32, bytes: u64, sink: &mut K) -> Result<(), SinkFailed>
    ensures { Writes K.means sink.old sink.new (restored_line number bytes) result }
{
    write_text(
        place_text(b"restored", u64::from(number), bytes).bytes(),
        sink,
    )
}

/// What a reply that was written, or wasn't, makes of a line.
pub fn replied(written: Result<(), SinkFailed>) -> Result<(), StoreFault>
    ensures { result ≡ replied_so written }
{
    Ok(written?)
}

/// What a line is refused for behind a fault; nothing behind one that ends the script.
pub fn refusal_for(fault: StoreFault) -> Option<Refusal>
    ensures { result ≡ refusal_of fault }
{
    match fault {
        StoreFault::Protected => Some(Refusal::Protected),
        StoreFault::Full { need, have } => Some(Refusal::Full { need, have }),
        StoreFault::NoVolume { number, count } => Some(Refusal::NoVolume { number, count }),
        StoreFault::Lost { segment, lost } => Some(Refusal::Lost { segment, lost }),
        StoreFault::Mismatch { segment } => Some(Refusal::Mismatch { segment }),
        StoreFault::NotFormatted
        | StoreFault::Foreign { .. }
        | StoreFault::TableMismatch
        | StoreFault::Short { .. }
        | StoreFault::Source
        | StoreFault::Sink
        | StoreFault::Tape => None,
    }
}

/// Replies to a line that a fault refuses. One that ends the script is answered at once.
pub fn reply_refused<K: Sink>(fault: StoreFault, sink: &mut K) -> Result<(), StoreFault>
    ensures { RepliesTo K.means sink.old sink.new fault result }
{
    match refusal_for(fault) {
        Some(refusal) => replied(write_refusal(refusal, sink)),
        None => Err(fault),
    }
}
