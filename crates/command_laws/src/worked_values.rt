//! Worked values of the commands' definitions; the functions do nothing, and evaluation proves their contracts.

ghost use Rattle.command_laws.specs.WorkedValues.{BlankLine, RoomTold, DefectLine, LostLine, ProtectedLine, UpgradedLine, FormattedLine, InfoText, EmptyList, OneVolumeListed, AppendedLine, ScrubLine, HeaderLine, LostSegmentLine, MismatchLine, WrongLine, LastDateText, NoDateText, NameText, ListWord, DeepWords, DeepIsNotScrub, ScrubIsNotDeep, NewWords, AppendWords, AppendWithoutDate, ListNow, New247, LeadingZero, TenDigits, ThreeWords, ThreePieces, PromisedTooMuch, PromisedTakesNone, FourForThree, FewerThanPromised, ScriptIsRead, AppendReplies, ListReplies, RestoreReplies, FullRefused, NoVolumeRefused, LostRefused, MismatchRefused, ProtectedRefused, PlaceRefused, FirstMade, ThirdMade, FirstByte, MadeName, FirstMadeSegments, SecondMadeSegments, ThirdMadeSegments, Worn, Looked, SumLine, StatusLevels, StatusIs, IllegalTrackLevels, ReportBrokenOff, SeekGoesOn, ErrorWords, ProtectedError, NoCartridgeError, SoughtTrack, SkippedBack};
ghost use Rattle.command_laws.specs.WorkedCopies.{CopiedText, CopiesAreAlike, FirstCopied, NameDiffers, OneTooMany, SecondCopied};

/// Lines that commands print.
pub fn lines()
    ensures blank { BlankLine }
    ensures room { RoomTold }
    ensures defect { DefectLine }
    ensures lost { LostLine }
    ensures protected { ProtectedLine }
    ensures upgraded { UpgradedLine }
    ensures formatted { FormattedLine }
    ensures info { InfoText }
    ensures empty_list { EmptyList }
    ensures one_volume { OneVolumeListed }
    ensures appended { AppendedLine }
    ensures scrub { ScrubLine }
    ensures header { HeaderLine }
    ensures lost_segment { LostSegmentLine }
    ensures mismatch { MismatchLine }
    ensures wrong { WrongLine }
    ensures last_date { LastDateText }
    ensures no_date { NoDateText }
    ensures name { NameText }
{}

/// Words of commands.
pub fn words()
    ensures list { ListWord }
    ensures deep { DeepWords }
    ensures deep_only { DeepIsNotScrub }
    ensures scrub_only { ScrubIsNotDeep }
    ensures new { NewWords }
    ensures append { AppendWords }
    ensures without_date { AppendWithoutDate }
    ensures list_now { ListNow }
    ensures too_long { New247 }
    ensures leading_zero { LeadingZero }
    ensures ten_digits { TenDigits }
    ensures three { ThreeWords }
{}

/// What an append takes, and what a restore reads.
pub fn appending()
    ensures pieces { ThreePieces }
    ensures promised { PromisedTooMuch }
    ensures takes_none { PromisedTakesNone }
    ensures full { FourForThree }
    ensures short { FewerThanPromised }
{}

/// A script, and replies.
pub fn script()
    ensures read { ScriptIsRead }
    ensures append { AppendReplies }
    ensures list { ListReplies }
    ensures restore { RestoreReplies }
    ensures refused_full { FullRefused }
    ensures refused_no_volume { NoVolumeRefused }
    ensures refused_lost { LostRefused }
    ensures refused_mismatch { MismatchRefused }
    ensures refused_protected { ProtectedRefused }
    ensures refused_place { PlaceRefused }
{}

/// A generated run.
pub fn generated()
    ensures first { FirstMade }
    ensures third { ThirdMade }
    ensures byte { FirstByte }
    ensures name { MadeName }
    ensures first_segments { FirstMadeSegments }
    ensures second_segments { SecondMadeSegments }
    ensures third_segments { ThirdMadeSegments }
    ensures worn { Worn }
    ensures looked { Looked }
    ensures sum { SumLine }
{}

/// Trains, and what the line shows.
pub fn trains()
    ensures status { StatusLevels }
    ensures status_word { StatusIs }
    ensures illegal_track { IllegalTrackLevels }
    ensures broken_off { ReportBrokenOff }
    ensures seek { SeekGoesOn }
    ensures errors { ErrorWords }
    ensures protected_error { ProtectedError }
    ensures no_cartridge { NoCartridgeError }
    ensures sought { SoughtTrack }
    ensures skipped { SkippedBack }
{}

/// A copy of two volumes to a cartridge with other defects.
pub fn copies()
    ensures text { CopiedText }
    ensures first { FirstCopied }
    ensures second { SecondCopied }
    ensures alike { CopiesAreAlike }
    ensures name { NameDiffers }
    ensures more { OneTooMany }
{}
