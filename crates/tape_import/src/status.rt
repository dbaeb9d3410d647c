//! How a run ends, and what is printed of it.

ghost use Rattle.std.specs.Prelude.{◌≡◌, ◌++◌, decimal};
ghost use Rattle.qic_base.specs.SinkCalls.{Writes};
ghost use Rattle.tape_import.specs.Texts.{status_code, plain_text, status_text, imported_text};

use flat_dump::Imported;
use itoa::Buffer;
use qic_base::{Sink, SinkFailed, write_text};

/// How a run ended.
#[derive(Clone, Copy)]
pub enum ImportStatus {
    /// The image is that of the dump.
    Done,
    /// The words are not those of this command.
    Usage,
    /// The map leaves its form first in this line, counted from 1.
    MapFault { line: u32 },
    /// The dump has so many bytes, as many as no cartridge.
    Length { bytes: u64 },
    /// The image file has a byte.
    NotEmpty,
    /// A read of the map or of the dump failed.
    SourceFault,
    /// A write to standard output failed.
    SinkFault,
    /// A call of the image failed.
    DiskFault,
    /// There was no memory for the words.
    NoMemory,
    /// The image can't be opened.
    NoImage,
    /// The file of the map can't be opened.
    NoMap,
}

impl ImportStatus {
    /// The exit status of the program.
    pub fn code(self) -> u8
        ensures { result ≡ status_code self }
    {
        match self {
            ImportStatus::Done => 0,
            ImportStatus::Usage => 2,
            ImportStatus::MapFault { .. } => 3,
            ImportStatus::Length { .. } => 4,
            ImportStatus::NotEmpty => 6,
            ImportStatus::SourceFault => 16,
            ImportStatus::SinkFault => 17,
            ImportStatus::DiskFault => 18,
            ImportStatus::NoMemory => 19,
            ImportStatus::NoImage | ImportStatus::NoMap => 20,
        }
    }

    /// Its line where that has no number; none where all went well.
    fn plain_line(self) -> &'static str
        ensures { result.now ≡ plain_text self }
    {
        match self {
            ImportStatus::Usage => "usage: tape_import [--map FILE] [--segments N] IMAGE\n",
            ImportStatus::NotEmpty => "tape_import: the image is not empty\n",
            ImportStatus::SourceFault => "tape_import: input failed\n",
            ImportStatus::SinkFault => "tape_import: output failed\n",
            ImportStatus::DiskFault => "tape_import: the image failed\n",
            ImportStatus::NoMemory => "tape_import: no memory\n",
            ImportStatus::NoImage => "tape_import: cannot open the image\n",
            ImportStatus::NoMap => "tape_import: cannot open the map\n",
            ImportStatus::Done | ImportStatus::MapFault { .. } | ImportStatus::Length { .. } => "",
        }
    }
}

/// Writes a number in decimal digits, and a text behind it.
fn write_number<K: Sink>(value: u64, behind: &str, sink: &mut K) -> Result<(), SinkFailed>
    ensures { Writes K.means sink.old sink.new (decimal value ++ behind.now) result }
{
    let mut buffer = Buffer::new();
    match write_text(buffer.format(value).as_bytes(), sink) {
        Ok(()) => write_text(behind.as_bytes(), sink),
        Err(fault) => Err(fault),
    }
}

/// The same, behind another text.
fn write_between<K: Sink>(
    before: &str,
    value: u64,
    behind: &str,
    sink: &mut K,
) -> Result<(), SinkFailed>
    ensures { Writes K.means sink.old sink.new
        (before.now ++ (decimal value ++ behind.now)) result }
{
    match write_text(before.as_bytes(), sink) {
        Ok(()) => write_number(value, behind, sink),
        Err(fault) => Err(fault),
    }
}

/// Writes the line of a status; none where all went well.
pub fn write_status<K: Sink>(status: ImportStatus, sink: &mut K) -> Result<(), SinkFailed>
    ensures { Writes K.means sink.old sink.new (status_text status) result }
{
    match status {
        ImportStatus::MapFault { line } => write_between(
            "tape_import: fault in line ",
            u64::from(line),
            " of the map\n",
            sink,
        ),
        ImportStatus::Length { bytes } => {
            write_between("tape_import: ", bytes, " bytes are no cartridge\n", sink)
        }
        other => write_text(other.plain_line().as_bytes(), sink),
    }
}

/// Writes how many segments and lost sectors an image has that was made.
pub fn write_imported<K: Sink>(imported: Imported, sink: &mut K) -> Result<(), SinkFailed>
    ensures { Writes K.means sink.old sink.new (imported_text imported) result }
{
    match write_between("imported ", u64::from(imported.segments), " ", sink) {
        Ok(()) => write_number(u64::from(imported.lost), "\n", sink),
        Err(fault) => Err(fault),
    }
}
