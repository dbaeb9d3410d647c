//! How a run ends.

use qic_base::ForeignField;

/// How a run ended. Segments, sectors and slots count from 0, volumes and lines from 1.
#[derive(Clone, Copy, Debug, PartialEq, Eq)]
pub enum Status {
    /// The command was carried out.
    Done,
    /// The words are those of no command.
    Usage,
    /// A line of the input is none, or the input ends inside an append; `place` bytes stand before the line.
    ScriptFault { line: u32, place: u64 },
    /// The drive holds no cartridge.
    NoCartridge,
    /// The cartridge is write protected.
    Protected,
    /// The cartridge has no reference bursts, or no header that can be read.
    NotFormatted,
    /// The header or the volume table has a value that this project's profile does not take.
    Foreign { field: ForeignField, value: u32 },
    /// The sectors of the volume table that can be read are those of no code block.
    TableMismatch,
    /// There is room for `have` bytes, and `need` are asked for.
    Full { need: u64, have: u64 },
    /// There is no volume of this number among `count`.
    NoVolume { number: u32, count: u32 },
    /// More than three sectors of a segment that is needed are unreadable: their number.
    Lost { segment: u32, lost: u8 },
    /// The sectors of a segment that can be read are those of no code block.
    Mismatch { segment: u32 },
    /// All segments were looked at: so many can be mended, and so many can't.
    Unsound { mendable: u32, bad: u32 },
    /// A sector of the segments 0 to 2 is a defect.
    DefectInFront { segment: u32 },
    /// The sector was formatted, so it can be made no defect.
    NotBlank,
    /// The cartridge has no such sector.
    BadPlace,
    /// Standard input, or what stands in its place, failed.
    SourceFault,
    /// Standard output, or what stands in its place, failed.
    SinkFault,
    /// The tape failed.
    TapeFault,
    /// There was no memory for the working objects; nothing was touched.
    NoMemory,
}
