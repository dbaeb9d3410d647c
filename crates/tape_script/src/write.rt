//! Printed texts: numbers, dates and names.

ghost use Rattle.std.specs.Prelude.{decimal};
ghost use Rattle.qic_base.specs.SinkCalls.{Writes};
ghost use Rattle.command_spec.specs.Lines.{date_text, name_text};

use crate::text_line::TextLine;
use itoa::Buffer;
use qic_base::{Name, Sink, SinkFailed, write_text};

/// Writes a number in decimal digits, without leading zeros.
pub fn write_number<K: Sink>(value: u64, sink: &mut K) -> Result<(), SinkFailed>
    ensures { Writes K.means sink.old sink.new (decimal value) result }
{
    let mut buffer = Buffer::new();
    write_text(buffer.format(value).as_bytes(), sink)
}

/// Writes the date of a date word as `YYYY-MM-DDTHH:MM:SS`, or `?` where it is none.
pub fn write_date<K: Sink>(date: u32, sink: &mut K) -> Result<(), SinkFailed>
    ensures { Writes K.means sink.old sink.new (date_text date) result }
{
    let mut line = TextLine::new();
    line.push_date(date);
    write_text(line.bytes(), sink)
}

/// Writes a name without the filling at its end; `?` stands for each byte that a line can't show.
pub fn write_name<K: Sink>(name: &Name, sink: &mut K) -> Result<(), SinkFailed>
    ensures { Writes K.means sink.old sink.new (name_text name.now) result }
{
    let mut line = TextLine::new();
    line.push_name(name);
    write_text(line.bytes(), sink)
}
