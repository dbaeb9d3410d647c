//! What an append leaves, done or stopped. Each law is the contract of a function that does nothing, so that other crates
//! can rest on it; their proofs import the lemmas of this crate's `proofs`.

ghost use Rattle.cartridge_laws.specs.AppendLaws.{SettledIsReady, BeforeReadsOld, TurnedReadsNew, VolumeStepsByBytes, WritesBySegment, SectorsTakeTheirs, AppendedIsWhole, AppendedIsReady, FreeWritesStand, FreeWritesLeaveReady, FreeWritesAreClean, SectorWritesAreCartridge, StoppedVolume, StoppedList, StoppedAppend, StoppedFromTheStart, AppendTouchesOnly, StoppedAppendMounts, StoppedAppendIsClean, StoppedAppendIsCartridge};
ghost use Rattle.cartridge_laws.specs.AppendSettled.{SettledIsSettledFor, SettledMayAppendTo, ReadyIsSettledFor, FreeWritesLeaveSettled, DoneTableShows, DoneBytes, DoneStands, DoneMounts, DoneIsSettledFor, DoneIsClean, DoneIsCartridge, DoneTouchesOnly, DoneMayAppendTo};

/// A cartridge that was settled is ready for an append that has room, where each sector of its table's segment takes
/// what is written to it.
pub fn settled_is_ready()
    ensures { SettledIsReady }
{}

/// On a cartridge that was settled and is not protected each sector of the table's segment that takes what is written
/// to it holds its part, and a volume that had room has it still; so it is on one that is ready for an append.
pub fn settled_over_dead_sectors()
    ensures settled { SettledIsSettledFor }
    ensures may { SettledMayAppendTo }
    ensures ready { ReadyIsSettledFor }
{}

/// A table's segment between two data is read as the old ones until the changed sector of data is new, and as the new
/// ones from then on.
pub fn between_tables()
    ensures old { BeforeReadsOld }
    ensures new { TurnedReadsNew }
{}

/// The writes of the new volume go segment by segment: each takes the bytes that it has room for, and the rest goes
/// behind it.
pub fn by_segments()
    ensures bytes { VolumeStepsByBytes }
    ensures first { WritesBySegment }
    ensures sectors { SectorsTakeTheirs }
{}

/// After all steps of an append the table shows the new volume behind the old ones, with just the bytes that were
/// appended, and the cartridge stands for the plain one with that volume. It is so, too, where sectors of the table's
/// segment are defects or were never formatted, but the table can be read. The next append may follow.
pub fn done_append_over_dead_sectors()
    ensures shows { DoneTableShows }
    ensures bytes { DoneBytes }
    ensures stands { DoneStands }
    ensures mounts { DoneMounts }
    ensures settled { DoneIsSettledFor }
    ensures clean { DoneIsClean }
    ensures whole { DoneIsCartridge }
    ensures others { DoneTouchesOnly }
    ensures again { DoneMayAppendTo }
{}

/// Where each sector of the table's segment takes what is written to it, all of it is written, and so it is for the next
/// append.
pub fn done_append()
    ensures table { AppendedIsWhole }
    ensures ready { AppendedIsReady }
{}

/// Whatever is written behind the last volume, stopped or not, leaves what stood; and whatever sectors are written, a
/// cartridge is left.
pub fn free_writes()
    ensures stands { FreeWritesStand }
    ensures ready { FreeWritesLeaveReady }
    ensures settled { FreeWritesLeaveSettled }
    ensures clean { FreeWritesAreClean }
    ensures whole { SectorWritesAreCartridge }
{}

/// A stop among the steps of an append leaves what stood, or the plain cartridge with the new volume. Among the writes
/// of the volume it leaves the table whole, and among those of the table it leaves it between its two data.
pub fn stopped_append()
    ensures volume { StoppedVolume }
    ensures list { StoppedList }
    ensures stands { StoppedAppend }
    ensures from_the_start { StoppedFromTheStart }
    ensures others { AppendTouchesOnly }
    ensures mounts { StoppedAppendMounts }
    ensures clean { StoppedAppendIsClean }
    ensures whole { StoppedAppendIsCartridge }
{}
