//! The error codes of the drive, which a report of the error word shows.

ghost use Rattle.std.specs.Prelude.{◌≡◌};
ghost use Rattle.qic117_commands.specs.Codes.{code_of};
ghost use Rattle.qic117_commands.specs.Names.{text_of};

/// Why the drive latched an error, or `NoError` for none (QIC-117).
#[derive(Clone, Copy, PartialEq, Eq)]
pub enum ErrorCode {
    NoError = 0,
    NotReady = 1,
    NoCartridge = 2,
    WriteProtected = 5,
    UndefinedCommand = 6,
    IllegalTrack = 7,
    IllegalInReport = 8,
    IllegalDiagnostic = 9,
    NewCartridge = 13,
    IllegalInPrimary = 14,
    IllegalInFormat = 15,
    IllegalInVerify = 16,
    NotAtLogicalBot = 17,
    LogicalEot = 18,
    NotReferenced = 19,
    SoftwareReset = 27,
}

impl ErrorCode {
    /// The code in the low byte of an error word, 0 to 27.
    pub fn number(self) -> u8
        ensures { result ≡ code_of self }
    {
        self as u8
    }

    /// What the code means, in this project's words.
    pub fn text(self) -> &'static str
        ensures { result.now ≡ text_of self }
    {
        match self {
            ErrorCode::NoError => "no error",
            ErrorCode::NotReady => "not ready",
            ErrorCode::NoCartridge => "no cartridge",
            ErrorCode::WriteProtected => "write protected",
            ErrorCode::UndefinedCommand => "undefined or reserved command",
            ErrorCode::IllegalTrack => "illegal track",
            ErrorCode::IllegalInReport => "illegal command in report subcontext",
            ErrorCode::IllegalDiagnostic => "illegal entry into a diagnostic mode",
            ErrorCode::NewCartridge => "new cartridge pending",
            ErrorCode::IllegalInPrimary => "illegal in primary mode",
            ErrorCode::IllegalInFormat => "illegal in format mode",
            ErrorCode::IllegalInVerify => "illegal in verify mode",
            ErrorCode::NotAtLogicalBot => "logical forward not at logical BOT in format mode",
            ErrorCode::LogicalEot => "logical EOT before all segments generated",
            ErrorCode::NotReferenced => "cartridge not referenced",
            ErrorCode::SoftwareReset => "software reset occurred",
        }
    }
}
