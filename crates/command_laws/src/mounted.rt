//! What becomes of a mounted cartridge. Each law is the contract of a function that does nothing, so that other crates can rest
//! on it; their proofs import the lemmas of this crate's `proofs`.

ghost use Rattle.command_laws.specs.MountedKept.{AppendsKeep, AppendsSurvive, AppendedSurvive, WearsKeep, ScrubsKeep, AppendsLeaveOpen, WearsLeaveOpen, ScrubsLeaveOpen};
ghost use Rattle.command_laws.specs.MountedListed.{MountedListed, ListedReads, AppendListed, WearListed, ScrubListed, RestoresAnyway, ScrubsAnyway};
ghost use Rattle.command_laws.specs.MountedListing.{SettledLists, AppendLists, AppendFrontLists, WearLists, ScrubLists};

/// An append of as many bytes as are promised, with room for them, leaves the plain cartridge with that volume; a stop
/// in it that or the one before it. So it is behind the settling of the table also where one sector of the table's
/// segment is lost besides.
pub fn an_append_keeps_what_stands()
    ensures keeps { AppendsKeep }
    ensures survives { AppendsSurvive }
    ensures appended { AppendedSurvive }
{}

/// A sector that is worn behind the table's segment, and a scrub, leave what stands.
pub fn wears_and_scrubs_keep_what_stands()
    ensures wears { WearsKeep }
    ensures scrubs { ScrubsKeep }
{}

/// An append that is done, a sector that is worn behind the table's segment, and a scrub leave a cartridge whose table
/// reads, also where sectors of the table's segment take no write.
pub fn appends_wears_and_scrubs_leave_it_open()
    ensures appends { AppendsLeaveOpen }
    ensures wears { WearsLeaveOpen }
    ensures scrubs { ScrubsLeaveOpen }
{}

/// A mounted cartridge has the list that it was mounted with; its table shows that list, or has lost more than three
/// sectors.
pub fn a_mounted_cartridge_has_its_list()
    ensures mounted { MountedListed }
    ensures reads { ListedReads }
{}

/// An append leaves the list, or that with its entry; a worn sector in any place, and a scrub, leave the list.
pub fn appends_wears_and_scrubs_leave_a_list()
    ensures appends { AppendListed }
    ensures wears { WearListed }
    ensures scrubs { ScrubListed }
{}

/// Restores and scrubs come to something, whatever the sectors hold.
pub fn restores_and_scrubs_come_to_something()
    ensures restores { RestoresAnyway }
    ensures scrubs { ScrubsAnyway }
{}

/// A mounted cartridge is mounted with the same list once it is settled, and with the list behind an append, all of it
/// done; a front of an append's acts that writes no entry leaves the list before it.
pub fn an_append_leaves_what_is_mounted()
    ensures settled { SettledLists }
    ensures appends { AppendLists }
    ensures fronts { AppendFrontLists }
{}

/// A sector that is worn behind the table's segment, and a scrub or a front of its acts, leave what is mounted.
pub fn wears_and_scrubs_leave_what_is_mounted()
    ensures wears { WearLists }
    ensures scrubs { ScrubLists }
{}
