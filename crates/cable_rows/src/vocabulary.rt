//! The tables of numbers, codes, refusals and status words, read off by hand.

use qic117_commands::{
    Command, DriveView, ErrorCode, Mode, Motion, command_of, refusal, status_word,
};

const COMMANDS: [(u8, Command); 38] = [
    (1, Command::Reset),
    (2, Command::ReportNextBit),
    (3, Command::Pause),
    (4, Command::MicroStepPause),
    (5, Command::AlternateTimeout),
    (6, Command::ReportStatus),
    (7, Command::ReportError),
    (8, Command::ReportConfiguration),
    (9, Command::ReportRom),
    (10, Command::LogicalForward),
    (11, Command::PhysicalReverse),
    (12, Command::PhysicalForward),
    (13, Command::SeekTrack),
    (14, Command::SeekLoadPoint),
    (15, Command::EnterFormat),
    (16, Command::WriteReference),
    (17, Command::EnterVerify),
    (18, Command::StopTape),
    (21, Command::MicroStepUp),
    (22, Command::MicroStepDown),
    (23, Command::SoftSelect),
    (24, Command::SoftDeselect),
    (25, Command::SkipReverse),
    (26, Command::SkipForward),
    (27, Command::SelectRate),
    (28, Command::Diagnostic1),
    (29, Command::Diagnostic2),
    (30, Command::EnterPrimary),
    (31, Command::VendorUnique),
    (32, Command::ReportVendor),
    (33, Command::ReportTapeStatus),
    (34, Command::ExtendedSkipReverse),
    (35, Command::ExtendedSkipForward),
    (36, Command::CalibrateLength),
    (37, Command::ReportFormatSegments),
    (38, Command::SetFormatSegments),
    (46, Command::PhantomSelect),
    (47, Command::PhantomDeselect),
];

const NAMES: [(Command, &str); 6] = [
    (Command::Reset, "Reset"),
    (Command::ReportNextBit, "ReportNextBit"),
    (Command::SkipReverse, "SkipReverse"),
    (Command::Diagnostic2, "Diagnostic2"),
    (Command::VendorUnique, "VendorUnique"),
    (Command::PhantomDeselect, "PhantomDeselect"),
];

#[test]
fn commands_have_their_names(rt: HostRuntime) {
    for (command, name) in NAMES {
        assert_eq!(rt; command.name(), name);
    }
}

#[test]
fn every_number_has_its_command(rt: HostRuntime) {
    for pulses in 0..=255u8 {
        let listed = COMMANDS.iter().find(|(number, _)| *number == pulses);
        let command = listed.map(|(_, command)| *command);
        let number = match command {
            Some(command) => command.number(),
            None => pulses,
        };
        assert_eq!(rt; (pulses, command_of(pulses)), (number, command));
    }
}

const CODES: [(ErrorCode, u8, &str); 16] = [
    (ErrorCode::NoError, 0, "no error"),
    (ErrorCode::NotReady, 1, "not ready"),
    (ErrorCode::NoCartridge, 2, "no cartridge"),
    (ErrorCode::WriteProtected, 5, "write protected"),
    (
        ErrorCode::UndefinedCommand,
        6,
        "undefined or reserved command",
    ),
    (ErrorCode::IllegalTrack, 7, "illegal track"),
    (
        ErrorCode::IllegalInReport,
        8,
        "illegal command in report subcontext",
    ),
    (
        ErrorCode::IllegalDiagnostic,
        9,
        "illegal entry into a diagnostic mode",
    ),
    (ErrorCode::NewCartridge, 13, "new cartridge pending"),
    (ErrorCode::IllegalInPrimary, 14, "illegal in primary mode"),
    (ErrorCode::IllegalInFormat, 15, "illegal in format mode"),
    (ErrorCode::IllegalInVerify, 16, "illegal in verify mode"),
    (
        ErrorCode::NotAtLogicalBot,
        17,
        "logical forward not at logical BOT in format mode",
    ),
    (
        ErrorCode::LogicalEot,
        18,
        "logical EOT before all segments generated",
    ),
    (ErrorCode::NotReferenced, 19, "cartridge not referenced"),
    (ErrorCode::SoftwareReset, 27, "software reset occurred"),
];

#[test]
fn codes_have_their_numbers_and_texts(rt: HostRuntime) {
    for (code, number, text) in CODES {
        assert_eq!(rt; (code.number(), code.text()), (number, text));
    }
}

/// A drive with a referenced cartridge that the host knows, stopped at the start of a track in Primary
/// mode, but for what the words say.
fn drive(words: &str) -> DriveView {
    DriveView {
        present: !words.contains("empty"),
        motion: match (words.contains("seeking"), words.contains("streaming")) {
            (true, _) => Motion::Seeking,
            (false, true) => Motion::Streaming,
            (false, false) => Motion::Stopped,
        },
        mode: match (words.contains("format"), words.contains("verify")) {
            (true, _) => Mode::Format,
            (false, true) => Mode::Verify,
            (false, false) => Mode::Primary,
        },
        protected: words.contains("protected"),
        fresh: words.contains("fresh"),
        referenced: !words.contains("unmarked"),
        offset: if words.contains("behind") { 5 } else { 0 },
    }
}

/// A code, and the numbers of the commands that get it.
type Refused = &'static [(u8, &'static [u8])];

/// What each drive refuses beside the commands that no drive of this profile obeys.
const REFUSED: [(&str, Refused); 16] = [
    ("", &[(14, &[16, 38])]),
    (
        "empty",
        &[(2, &[10, 13, 14, 15, 16, 17, 18, 25, 26, 30, 33, 37, 38])],
    ),
    (
        "seeking",
        &[(
            1,
            &[8, 9, 10, 13, 14, 15, 16, 17, 18, 25, 26, 30, 32, 33, 37, 38],
        )],
    ),
    (
        "empty seeking",
        &[
            (1, &[8, 9, 32]),
            (2, &[10, 13, 14, 15, 16, 17, 18, 25, 26, 30, 33, 37, 38]),
        ],
    ),
    (
        "streaming fresh",
        &[
            (1, &[8, 9, 13, 14, 15, 16, 17, 25, 26, 30, 32, 33, 37, 38]),
            (13, &[10]),
        ],
    ),
    ("protected", &[(14, &[16, 38]), (5, &[15])]),
    (
        "protected fresh",
        &[(14, &[16, 38]), (5, &[15]), (13, &[10, 13, 14, 17, 25, 26])],
    ),
    (
        "fresh unmarked",
        &[(14, &[16, 38]), (13, &[10, 13, 14, 15, 17, 25, 26])],
    ),
    ("unmarked", &[(14, &[16, 38]), (19, &[10, 13, 17, 25, 26])]),
    ("format protected", &[(15, &[15, 25, 26])]),
    ("format behind", &[(15, &[15, 25, 26]), (17, &[10])]),
    (
        "format behind streaming",
        &[(1, &[8, 9, 13, 14, 15, 16, 17, 25, 26, 30, 32, 33, 37, 38])],
    ),
    (
        "format behind unmarked",
        &[(15, &[15, 25, 26]), (19, &[10, 13, 17])],
    ),
    ("verify behind", &[(16, &[15, 16, 17, 38])]),
    (
        "verify protected fresh",
        &[(16, &[15, 16, 17, 38]), (13, &[10, 13, 14, 25, 26])],
    ),
    (
        "verify unmarked",
        &[(16, &[15, 16, 17, 38]), (19, &[10, 13, 25, 26])],
    ),
];

fn expected(refused: Refused, number: u8) -> Option<u8> {
    match number {
        3 | 4 | 5 | 11 | 12 | 21 | 22 | 23 | 24 | 27 | 31 | 34 | 35 | 36 | 46 | 47 => Some(6),
        28 | 29 => Some(9),
        _ => {
            for (code, numbers) in refused {
                if numbers.contains(&number) {
                    return Some(*code);
                }
            }
            None
        }
    }
}

#[test]
fn each_row_refuses_its_commands(rt: HostRuntime) {
    for (words, refused) in REFUSED {
        let view = drive(words);
        for (number, command) in COMMANDS {
            let code = refusal(&view, command).map(|code| code.number());
            assert_eq!(rt;
                (words, number, code),
                (words, number, expected(refused, number))
            );
        }
    }
}

/// A drive, whether its error word is not 0, whether it is at its beginning and its end, and its status.
const STATUS: [(&str, bool, bool, bool, u8); 7] = [
    ("fresh", false, true, false, 0x75),
    ("seeking", false, false, false, 0x24),
    ("streaming unmarked", true, false, false, 0x06),
    ("streaming unmarked protected", false, false, false, 0x0C),
    ("streaming unmarked fresh", false, false, true, 0x94),
    ("streaming empty protected", false, false, false, 0x00),
    ("empty", false, false, false, 0x01),
];

#[test]
fn a_status_word_has_its_bits(rt: HostRuntime) {
    for (words, error, at_bot, at_eot, word) in STATUS {
        let status = status_word(&drive(words), error, at_bot, at_eot);
        assert_eq!(rt; (words, status), (words, word));
    }
}
