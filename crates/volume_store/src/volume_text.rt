//! The lines of volumes: one that was appended, one of a list, and their number.

ghost use Rattle.std.specs.Prelude.{◌≡◌};
ghost use Rattle.qic_base.specs.SinkCalls.{Writes};
ghost use Rattle.volume_table.specs.Entry.{entry_of};
ghost use Rattle.command_spec.specs.Lines.{appended_line, volume_line, count_line};

use crate::appended::Appended;
use qic_base::{Sink, SinkFailed, write_text};
use tape_script::{TextLine, number_text};
use volume_table::Entry;

/// The line of a volume that was appended: its number, its bytes, and its first and its last segment.
#[tactic(auto, unfolding(command_spec::specs::Lines::appended_line))]
pub fn appended_text(appended: &Appended) -> TextLine
    ensures { result ≡ appended_line appended.now.number appended.now.bytes appended.now.start appended.now.end }
{
    let mut line = TextLine::new();
    line.push_text(b"appended ");
    line.push_number(u64::from(appended.number));
    line.push_text(b" ");
    line.push_number(appended.bytes);
    line.push_text(b" ");
    line.push_number(u64::from(appended.start));
    line.push_text(b" ");
    line.push_number(u64::from(appended.end));
    line.push_text(b"\n");
    line
}

#[tactic(auto, unfolding(command_spec::specs::Lines::volume_line))]
fn volume_text(number: u32, entry: &Entry, bytes: u64) -> TextLine
    ensures { result ≡ volume_line number (entry_of entry.now) bytes }
{
    let mut line = TextLine::new();
    line.push_number(u64::from(number));
    line.push_text(b" ");
    line.push_number(u64::from(entry.start));
    line.push_text(b" ");
    line.push_number(u64::from(entry.end));
    line.push_text(b" ");
    line.push_number(bytes);
    line.push_text(b" ");
    line.push_date(entry.date);
    line.push_text(b" ");
    line.push_name(&entry.name);
    line.push_text(b"\n");
    line
}

/// Writes the line of a volume in a list, which counts from 1, with its length in bytes.
pub fn write_volume_line<K: Sink>(
    number: u32,
    entry: &Entry,
    bytes: u64,
    sink: &mut K,
) -> Result<(), SinkFailed>
    ensures { Writes K.means sink.old sink.new (volume_line number (entry_of entry.now) bytes) result }
{
    write_text(volume_text(number, entry, bytes).bytes(), sink)
}

/// Writes how many volumes there are.
pub fn write_count<K: Sink>(count: u32, sink: &mut K) -> Result<(), SinkFailed>
    ensures { Writes K.means sink.old sink.new (count_line count) result }
{
    write_text(number_text(b"volumes", u64::from(count)).bytes(), sink)
}
