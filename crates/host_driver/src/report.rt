//! The reports of the drive.

ghost use Rattle.std.specs.Prelude.{◌≡◌};
ghost use Rattle.host_driver.specs.Reports.{command_of, width_of};

use qic117_commands::Command;

/// A report of the drive (QIC-117): of 8 bits, but for the error word, the vendor and the format segments, of 16.
#[derive(Clone, Copy)]
pub enum Report {
    Status,
    Error,
    Configuration,
    Rom,
    Vendor,
    TapeStatus,
    FormatSegments,
}

impl Report {
    /// The command that asks for it.
    pub fn command(self) -> Command
        ensures { result ≡ command_of self }
    {
        match self {
            Report::Status => Command::ReportStatus,
            Report::Error => Command::ReportError,
            Report::Configuration => Command::ReportConfiguration,
            Report::Rom => Command::ReportRom,
            Report::Vendor => Command::ReportVendor,
            Report::TapeStatus => Command::ReportTapeStatus,
            Report::FormatSegments => Command::ReportFormatSegments,
        }
    }

    /// How many bits it has, 8 or 16.
    pub fn width(self) -> u8
        ensures { result ≡ width_of self }
    {
        match self {
            Report::Status | Report::Configuration | Report::Rom | Report::TapeStatus => 8,
            Report::Error | Report::Vendor | Report::FormatSegments => 16,
        }
    }
}
