//! What scrubbing leaves, done or stopped. Each law is the contract of a function that does nothing, so that other crates
//! can rest on it; their proofs import the lemmas of this crate's `proofs`.

ghost use Rattle.command_laws.specs.ScrubLaws.{ScrubsIsFunction, ScrubsAlways, CopyIsLookedAt, LookedRise, ScrubsAtOnce, LookedCarry, OneMoreLook, StepsByPlaces, CountOfNamed, SettledTableReads, DoneScrub, DoneScrubStands, DoneScrubIsClean, DoneScrubMounts, DoneScrubTable, DoneScrubIsSettled, DoneScrubIsCartridge, SecondScrubWritesNothing, StoppedScrub, ReadableStays, StoppedScrubStands, StoppedScrubIsClean, StoppedScrubMounts, StoppedScrubTable, StoppedScrubIsSettled, StoppedScrubIsCartridge};

/// Scrubbing a cartridge does one thing, and it does something. The segments that are looked at ascend, so no write
/// touches one that is looked at later: what each says and what is done in it follows from the cartridge before the
/// first write; and each of them carries data.
pub fn scrubbing_is_one()
    ensures function { ScrubsIsFunction }
    ensures always { ScrubsAlways }
    ensures rise { LookedRise }
    ensures at_once { ScrubsAtOnce }
    ensures carry { LookedCarry }
{}

/// A header copy counts as read just where it can be read as one.
pub fn header_copies_read_alike()
    ensures { CopyIsLookedAt }
{}

/// One segment more adds its act, as the cartridge then stands; its writes are those to the places that a reading of it
/// found unreadable.
pub fn look_by_look()
    ensures more { OneMoreLook }
    ensures places { StepsByPlaces }
    ensures count { CountOfNamed }
{}

/// The table's segment of a settled cartridge reads.
pub fn settled_table_reads()
    ensures { SettledTableReads }
{}

/// After all steps of a scrub each unreadable usable sector of a segment that was looked at and reads holds its sector
/// of the segment's block, where it takes a write, and nothing else has changed. So the cartridge stands for what it
/// stood for.
pub fn done_scrub()
    ensures scrubbed { DoneScrub }
    ensures stands { DoneScrubStands }
    ensures clean { DoneScrubIsClean }
    ensures mounts { DoneScrubMounts }
    ensures table { DoneScrubTable }
    ensures settled { DoneScrubIsSettled }
    ensures whole { DoneScrubIsCartridge }
{}

/// Where each usable sector of the segments that are looked at takes what is written to it, a second scrub writes
/// nothing.
pub fn second_scrub()
    ensures { SecondScrubWritesNothing }
{}

/// A stop among the steps of a scrub leaves each sector as it was, but for lost ones of those, which may hold their
/// sector of the block; each readable one is as it was. So the cartridge stands for what it stood for, at any moment.
pub fn stopped_scrub()
    ensures mending { StoppedScrub }
    ensures readable { ReadableStays }
    ensures stands { StoppedScrubStands }
    ensures clean { StoppedScrubIsClean }
    ensures mounts { StoppedScrubMounts }
    ensures table { StoppedScrubTable }
    ensures settled { StoppedScrubIsSettled }
    ensures whole { StoppedScrubIsCartridge }
{}
