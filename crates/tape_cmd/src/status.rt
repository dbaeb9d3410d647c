//! The exit status of a run's end, and its line.

ghost use Rattle.std.specs.Prelude.{◌≡◌, ◌+◌, ◌≤◌, ◌++◌, length, decimal};
ghost use Rattle.qic_base.specs.SinkCalls.{Writes};
ghost use Rattle.tape_cmd.specs.Lines.{status_code, status_text, plain_text, field_text};
ghost use Rattle.command_spec.specs.declared.status.Status.TheVariants.{Foreign, ScriptFault, Unsound};

use command_spec::Status;
use qic_base::{ForeignField, Sink, SinkFailed, write_text};
use tape_script::TextLine;

fn field_name(field: ForeignField) -> &'static [u8]
    ensures { result.now ≡ field_text field }
{
    match field {
        ForeignField::FormatCode => b"format-code",
        ForeignField::FirstHeader => b"first-header",
        ForeignField::SecondHeader => b"second-header",
        ForeignField::FirstData => b"first-data",
        ForeignField::LastData => b"last-data",
        ForeignField::SegmentsPerTrack => b"segments-per-track",
        ForeignField::Tracks => b"tracks",
        ForeignField::TrackMaximum => b"floppy-track-maximum",
        ForeignField::SectorMaximum => b"floppy-sector-maximum",
        ForeignField::Map => b"map",
        ForeignField::Slot => b"slot",
        ForeignField::Range => b"range",
    }
}

/// The exit status of the program.
pub fn exit_status(status: &Status) -> u8
    ensures { result ≡ status_code status.now }
{
    match status {
        Status::Done => 0,
        Status::Usage => 2,
        Status::ScriptFault { .. } => 3,
        Status::NoCartridge => 4,
        Status::Protected => 5,
        Status::NotFormatted => 6,
        Status::Foreign { .. } => 7,
        Status::TableMismatch => 8,
        Status::Full { .. } => 9,
        Status::NoVolume { .. } => 10,
        Status::Lost { .. } => 11,
        Status::Mismatch { .. } => 12,
        Status::DefectInFront { .. } => 13,
        Status::NotBlank => 14,
        Status::BadPlace => 15,
        Status::SourceFault => 16,
        Status::SinkFault => 17,
        Status::TapeFault => 18,
        Status::NoMemory => 19,
        Status::Unsound { .. } => 21,
    }
}

/// Writes the line of the status; one that was carried out has none.
pub fn write_status<K: Sink>(status: &Status, sink: &mut K) -> Result<(), SinkFailed>
    ensures { Writes K.means sink.old sink.new (status_text status.now) result }
{
    write_text(status_line(status).bytes(), sink)
}

/// The line of a status; none for a command that was carried out.
fn status_line(status: &Status) -> TextLine
    ensures { result ≡ status_text status.now }
{
    match *status {
        Status::ScriptFault { line, place } => fault_line(line, place),
        Status::Foreign { field, value } => foreign_line(field, value),
        Status::Full { need, have } => {
            with_numbers(b"tape: full, need ", need, b" have ", have, b"\n")
        }
        Status::NoVolume { number, count } => {
            with_numbers(
                b"tape: no volume ",
                u64::from(number),
                b" of ",
                u64::from(count),
                b"\n",
            )
        }
        Status::Lost { segment, lost } => with_numbers(
            b"tape: segment ",
            u64::from(segment),
            b" lost ",
            u64::from(lost),
            b" sectors\n",
        ),
        Status::Mismatch { segment } => {
            with_number(b"tape: segment ", u64::from(segment), b" does not agree\n")
        }
        Status::Unsound { mendable, bad } => unsound_line(mendable, bad),
        Status::DefectInFront { segment } => {
            with_number(b"tape: defect in segment ", u64::from(segment), b"\n")
        }
        other => fixed_line(other),
    }
}

/// The line of an input at fault, from a byte of this line on.
fn fault_line(line: u32, place: u64) -> TextLine
    ensures { result ≡ status_text (ScriptFault line place) }
{
    with_numbers(
        b"tape: input fault in line ",
        u64::from(line),
        b" at byte ",
        place,
        b"\n",
    )
}

/// The line of a check that found segments that are not sound.
fn unsound_line(mendable: u32, bad: u32) -> TextLine
    ensures { result ≡ status_text (Unsound mendable bad) }
{
    with_numbers(
        b"tape: ",
        u64::from(mendable),
        b" segments can be mended, ",
        u64::from(bad),
        b" not\n",
    )
}

/// A number between two texts.
fn with_number(before: &[u8], n: u64, after: &[u8]) -> TextLine
    requires { length before.now + length after.now ≤ 100 }
    ensures { result ≡ before.now ++ decimal n ++ after.now }
{
    let mut line = TextLine::new();
    line.push_text(before);
    line.push_number(n);
    line.push_text(after);
    line
}

/// Two numbers between three texts.
fn with_numbers(before: &[u8], a: u64, between: &[u8], b: u64, after: &[u8]) -> TextLine
    requires { length before.now + length between.now + length after.now ≤ 100 }
    ensures { result ≡
        before.now ++ decimal a ++ between.now ++ decimal b ++ after.now }
{
    let mut line = TextLine::new();
    line.push_text(before);
    line.push_number(a);
    line.push_text(between);
    line.push_number(b);
    line.push_text(after);
    line
}

/// A field with a value that is not taken.
fn foreign_line(field: ForeignField, value: u32) -> TextLine
    ensures { result ≡ status_text (Foreign field value) }
{
    let mut line = TextLine::new();
    line.push_text(b"tape: foreign ");
    line.push_text(field_name(field));
    line.push_text(b" ");
    line.push_number(u64::from(value));
    line.push_text(b"\n");
    line
}

fn fixed_line(status: Status) -> TextLine
    ensures { result ≡ plain_text status }
{
    let mut line = TextLine::new();
    line.push_text(fixed_text(status));
    line
}

/// The text of a status without numbers, and none for one with numbers.
fn fixed_text(status: Status) -> &'static [u8]
    ensures text { result.now ≡ plain_text status }
    ensures short { length result.now ≤ 100 }
{
    match status {
        Status::Usage => b"usage: tape IMAGE COMMAND\n",
        Status::NoCartridge => b"tape: no cartridge\n",
        Status::Protected => b"tape: the cartridge is protected\n",
        Status::NotFormatted => b"tape: the cartridge is not formatted\n",
        Status::TableMismatch => b"tape: the volume table does not agree\n",
        Status::NotBlank => b"tape: the sector is formatted\n",
        Status::BadPlace => b"tape: no such sector\n",
        Status::SourceFault => b"tape: input failed\n",
        Status::SinkFault => b"tape: output failed\n",
        Status::TapeFault => b"tape: the tape failed\n",
        Status::NoMemory => b"tape: no memory\n",
        Status::Done
        | Status::ScriptFault { .. }
        | Status::Foreign { .. }
        | Status::Full { .. }
        | Status::NoVolume { .. }
        | Status::Lost { .. }
        | Status::Mismatch { .. }
        | Status::Unsound { .. }
        | Status::DefectInFront { .. } => b"",
    }
}
