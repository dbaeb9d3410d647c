//! How a run ends, and what is said of it.

ghost use Rattle.std.specs.Prelude.{◌≡◌};
ghost use Rattle.tape_export.specs.Runs.{status_code, status_text};

/// How a run ended.
#[derive(Clone, Copy, PartialEq, Eq)]
pub enum ExportStatus {
    /// The dump was written, and its map where one is asked for.
    Done,
    /// The words are not those of this command.
    Usage,
    /// The image tells no cartridge.
    NoCartridge,
    /// The file of the map has a byte.
    NotEmpty,
    /// A write to standard output, or to the file of the map, failed.
    SinkFault,
    /// A read of the image failed.
    TapeFault,
    /// There was no memory for the words, or to work in.
    NoMemory,
    /// The image can't be opened.
    NoImage,
    /// The file of the map can't be opened.
    NoMap,
}

impl ExportStatus {
    /// The exit status of the program.
    pub fn code(self) -> u8
        ensures { result ≡ status_code self }
    {
        match self {
            ExportStatus::Done => 0,
            ExportStatus::Usage => 2,
            ExportStatus::NoCartridge => 5,
            ExportStatus::NotEmpty => 6,
            ExportStatus::SinkFault => 17,
            ExportStatus::TapeFault => 18,
            ExportStatus::NoMemory => 19,
            ExportStatus::NoImage | ExportStatus::NoMap => 20,
        }
    }

    /// Its line on standard error; none where all went well.
    pub fn line(self) -> &'static str
        ensures { result.now ≡ status_text self }
    {
        match self {
            ExportStatus::Done => "",
            ExportStatus::Usage => "usage: tape_export [--map FILE] IMAGE\n",
            ExportStatus::NoCartridge => "tape_export: no cartridge\n",
            ExportStatus::NotEmpty => "tape_export: the map is not empty\n",
            ExportStatus::SinkFault => "tape_export: output failed\n",
            ExportStatus::TapeFault => "tape_export: the image failed\n",
            ExportStatus::NoMemory => "tape_export: no memory\n",
            ExportStatus::NoImage => "tape_export: cannot open the image\n",
            ExportStatus::NoMap => "tape_export: cannot open the map\n",
        }
    }
}
