//! What a check that finds a cartridge sound says of it, what a scrub then does, and what a deep scrub makes of a cartridge of
//! which a check tells nothing but what that mends. Each law is the contract of a function that does nothing, so that other
//! crates can rest on it; their proofs import the lemmas of this crate's `proofs`.

ghost use Rattle.command_laws.specs.CheckLaws.{SoundIsReadWhole, ReadWholeIsSound, DoneWhereSound, DoneWhereReadThroughout};
ghost use Rattle.command_laws.specs.CheckLaws.{SoundIsSettled, SoundIsLeftByScrub, SoundIsLeftByDeepScrub, SoundScrubPrints};
ghost use Rattle.command_laws.specs.CheckLaws.{ToldIsMendable, StandingHasOneHeader, DeepScrubMakesSound, MendedCheckIsDone};
ghost use Rattle.command_laws.specs.CheckLaws.{WrongInTableIsNamed, WrongInTableIsTold};
ghost use Rattle.command_laws.specs.CheckLaws.{NamedInTableIsWrong, LostInTableIsUnsearched};

/// A segment is told to be sound exactly where each of its usable sectors can be read and it reads with the data of the code
/// block that they are of (QIC-80-MC). The command `check` is done exactly where the cartridge mounts and each segment that it
/// looks at is so.
pub fn a_sound_check()
    ensures read { SoundIsReadWhole }
    ensures told { ReadWholeIsSound }
    ensures done { DoneWhereSound }
    ensures throughout { DoneWhereReadThroughout }
{}

/// On a cartridge of which each segment is told to be sound a scrub writes nothing, in either form, and neither does the
/// settling of its table. Where the cartridge isn't protected it prints its counts alone.
pub fn a_sound_cartridge_is_left_alone()
    ensures settled { SoundIsSettled }
    ensures scrub { SoundIsLeftByScrub }
    ensures deep { SoundIsLeftByDeepScrub }
    ensures prints { SoundScrubPrints }
{}

/// A segment other than the table's that is told to be weak or wrong holds enough of its data for a deep scrub. Where each
/// sector takes what is written to it, and a check answers that none is bad, `scrub deep` makes the cartridge sound, with the
/// same header, map and list, and the check behind it is done. Where the first header copy is wrong the second must hold the
/// same header, as on a cartridge that stands.
pub fn a_mended_check()
    ensures mendable { ToldIsMendable }
    ensures header { StandingHasOneHeader }
    ensures sound { DeepScrubMakesSound }
    ensures done { MendedCheckIsDone }
{}

/// A sector of the volume table's data that can be read and holds other bytes than the block of all others is named by its
/// index, 0 to 28, where each sector of data can be read, at most one of parity can't, and it isn't the last one in use, which
/// a stopped append may leave so. No other one is: where a sector of data is lost, what a stopped append left may look like one.
pub fn a_wrong_sector_of_the_table_is_named()
    ensures named { WrongInTableIsNamed }
    ensures told { WrongInTableIsTold }
    ensures wrong { NamedInTableIsWrong }
    ensures unsearched { LostInTableIsUnsearched }
{}
