//! A sector lost by a script.

ghost use Rattle.std.specs.Prelude.{◌≡◌, ◌≢◌, Err};
ghost use Rattle.command_spec.specs.declared.line.Line.TheVariants.{Lose};
ghost use Rattle.volume_store.specs.Mounting.{StoreFits};
ghost use Rattle.volume_script.specs.Items.{ItemEnds};

use crate::replies::{replied, write_refusal};
use command_spec::Refusal;
use drive_states::{HandFault, Unit};
use qic_base::{Sink, Source, StoreFault, Tape, write_text};
use tape_script::place_text;
use volume_store::Store;

/// Makes a readable sector unreadable, until it is written again.
pub fn lose<T: Tape, S: Source, K: Sink>(
    store: &mut Store,
    unit: &mut Unit<T>,
    segment: u32,
    sector: u32,
    source: &mut S,
    sink: &mut K,
) -> Result<(), StoreFault>
    requires fits { StoreFits T.means store.old unit.old }
    ensures ends { ItemEnds T.means S.means K.means store.old store.new
        record { tape = unit.old.tape; source = source.old; sink = sink.old }
        record { tape = unit.new.tape; source = source.new; sink = sink.new }
        (Lose segment sector) result }
    ensures fits { result ≢ Err StoreFault.Tape → StoreFits T.means store.new unit.new }
    ensures store { store.new ≡ store.old }
    ensures source { source.new ≡ source.old }
{
    match store.wear(unit, segment, sector)? {
        Ok(()) => {
            let text = place_text(b"lost", u64::from(segment), u64::from(sector));
            replied(write_text(text.bytes(), sink))
        }
        Err(HandFault::BadPlace) => {
            replied(write_refusal(Refusal::Place { segment, sector }, sink))
        }
        Err(HandFault::NoCartridge | HandFault::NotBlank) => {
            unreachable!("the cartridge is there, and a sector is worn whatever it holds")
        }
    }
}
