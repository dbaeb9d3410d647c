//! One segment's bytes.

ghost use Rattle.std.specs.Prelude.{◌≡◌, ◌*◌, ◌≤◌, ℕ, List, [], ◌∷◌, ◌++◌, length, codes, decimal};
ghost use Rattle.qic_base.specs.SinkCalls.{Writes};
ghost use Rattle.qic_base.specs.Alone.{around};
ghost use Rattle.cartridge_spec.specs.Shape.{mask_at, capacity};
ghost use Rattle.host_driver.specs.Calls.{Keeps};
ghost use Rattle.segment_io.specs.Calls.{CanRead};
ghost use Rattle.volume_output.specs.Form.{is_lined};
ghost use Rattle.volume_output.specs.Output.{OutputEnds};
ghost use Rattle.volume_output.specs.Piece.{piece_of, part_text};

use crate::form::Form;
use crate::part::Place;
use crate::sectors::write_bytes;
use drive_states::Unit;
use host_driver::Host;
use qic_base::{Sector, Sink, SinkFailed, StoreFault, Tape, write_text};
use segment_io::{Workspace, read_segment};
use tape_script::TextLine;

/// Reads the segment of a piece, with these usable sectors, and hands the piece's bytes to the sink once it agrees.
pub(crate) fn write_piece<T: Tape, K: Sink>(
    host: &mut Host,
    unit: &mut Unit<T>,
    place: Place,
    usable: u32,
    form: Form,
    work: &mut Workspace,
    sink: &mut K,
) -> Result<(), StoreFault>
    requires can { CanRead T.means host.old unit.old place.segment usable }
    requires within { place.count ≤ capacity usable }
    ensures ends { (words : List ℕ) → usable ≡ mask_at words place.segment →
        OutputEnds T.means K.means words (piece_of place.segment place.count ∷ []) (is_lined form)
        (around unit.old.tape sink.old) (around unit.new.tape sink.new) result }
    ensures keeps { Keeps T.means host.new unit.old unit.new }
{
    read_segment(host, unit, place.segment, usable, work)??;
    write_part(work.sectors(), place.count, form, sink)?;
    Ok(())
}

/// Writes the first `count` bytes of the sectors in this form.
fn write_part<K: Sink>(
    sectors: &[Sector],
    count: u32,
    form: Form,
    sink: &mut K,
) -> Result<(), SinkFailed>
    requires { count ≤ 1024 * length sectors.now }
    ensures { (segment : ℕ) → Writes K.means sink.old sink.new
        (part_text (is_lined form) (piece_of segment count) sectors.now) result }
{
    match form {
        Form::Alone => {}
        Form::Lined => write_line(count, sink)?,
    }
    write_bytes(sectors, count, sink)
}

fn write_line<K: Sink>(count: u32, sink: &mut K) -> Result<(), SinkFailed>
    ensures { Writes K.means sink.old sink.new
        (codes "part " ++ decimal count ++ codes "\n") result }
{
    let mut line = TextLine::new();
    line.push_text(b"part ");
    line.push_number(u64::from(count));
    line.push_text(b"\n");
    write_text(line.bytes(), sink)
}
