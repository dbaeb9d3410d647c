//! What the header of a cartridge tells.

ghost use Rattle.std.specs.Prelude.{◌≡◌, ◌*◌, ◌++◌};
ghost use Rattle.command_spec.specs.declared.words.Words.TheVariants.{Info};
ghost use Rattle.qic_base.specs.SinkCalls.{Writes};
ghost use Rattle.header_segments.specs.Header.{header_of};
ghost use Rattle.command_spec.specs.Lines.{label_lines, count_lines};
ghost use Rattle.command_laws.specs.RunTerms.{EndsBlind};

use crate::opening::open;
use command_spec::Status;
use drive_states::Unit;
use hand_commands::printed;
use header_segments::Header;
use qic_base::{Sink, SinkFailed, TRACKS, Tape, write_text};
use tape_script::TextLine;
use volume_store::Room;

/// Opens the cartridge and prints what its header tells.
pub fn info<T: Tape, K: Sink>(unit: &mut Unit<T>, room: Room, sink: &mut K) -> Status
    ensures { EndsBlind T.means K.means Info unit.old.tape unit.new.tape sink.old sink.new result }
{
    match open(unit, room) {
        Ok(store) => printed(write_info(store.header(), store.bad(), store.count(), sink)),
        Err(status) => status,
    }
}

/// The label, and when the cartridge was formatted.
#[tactic(auto, unfolding(command_spec::specs::Lines::label_lines))]
fn label_text(header: &Header) -> TextLine
    ensures { result ≡ label_lines (header_of header.now) }
{
    let mut lines = TextLine::new();
    lines.push_text(b"label ");
    lines.push_name(&header.label);
    lines.push_text(b"\n");
    lines.push_text(b"formatted ");
    lines.push_date(header.format_date);
    lines.push_text(b"\n");
    lines
}

/// How many segments, bad sectors and volumes there are.
#[tactic(auto, unfolding(command_spec::specs::Lines::count_lines))]
fn count_text(segments: u32, bad: u32, volumes: u32) -> TextLine
    ensures { result ≡ count_lines segments bad volumes }
{
    let mut lines = TextLine::new();
    lines.push_text(b"segments ");
    lines.push_number(u64::from(segments));
    lines.push_text(b"\n");
    lines.push_text(b"bad sectors ");
    lines.push_number(u64::from(bad));
    lines.push_text(b"\n");
    lines.push_text(b"volumes ");
    lines.push_number(u64::from(volumes));
    lines.push_text(b"\n");
    lines
}

/// Writes what the header tells, and how many bad sectors and volumes there are.
fn write_info<K: Sink>(
    header: &Header,
    bad: u32,
    volumes: u32,
    sink: &mut K,
) -> Result<(), SinkFailed>
    ensures { Writes K.means sink.old sink.new (label_lines (header_of header.now)
        ++ count_lines (28 * header.now.segments_per_track) bad volumes) result }
{
    write_text(label_text(header).bytes(), sink)?;
    let segments = TRACKS * u32::from(header.segments_per_track);
    write_text(count_text(segments, bad, volumes).bytes(), sink)
}
