//! What is read of the table's segment where an append wrote it, done or stopped, and one sector more of it is lost. Each law is
//! the contract of a function that does nothing, so that other crates can rest on it; their proofs import the lemmas of this
//! crate's `proofs`.

ghost use Rattle.cartridge_laws.specs.OneLossLaws.{ParityBytesDiffer, ParityDiffers, NearBlockIsTables, BeforeReadsOldStill, LostParityReadsNew, LostDataReadsOld, LostDataReadsNew, OneLossReadsEither, AppendChangesOneSector, StoppedAppendReadsEither, DoneAppendReadsNew, TableAloneComesBack, SettledComesBack, TableAloneIsClean, StoppedAppendComesBack, DoneAppendComesBack};

/// Two tables that differ in one sector of data differ in each sector of parity, in each column in which that one
/// differs; and a code block that holds the sectors of a table outside three places at most is the table's: the code's
/// distance of four.
pub fn tables_are_far_apart()
    ensures bytes { ParityBytesDiffer }
    ensures parity { ParityDiffers }
    ensures near { NearBlockIsTables }
{}

/// A table's segment between two data, of which one sector more is lost, is read as the old ones until the changed
/// sector of data is new.
pub fn one_loss_before_the_turn()
    ensures { BeforeReadsOldStill }
{}

/// From then on, where a sector of parity is lost, it is read as the new ones. Where a sector of data is, it is read as
/// the old ones until the first sector of parity is new, and where the changed sector itself is lost, while the second
/// one is old; and else as the new ones. In the new data the changed sector is the last one with a used slot.
pub fn one_loss_behind_the_turn()
    ensures parity { LostParityReadsNew }
    ensures old { LostDataReadsOld }
    ensures new { LostDataReadsNew }
{}

/// In each state between the two data one of them is read.
pub fn one_loss()
    ensures { OneLossReadsEither }
{}

/// An append changes one sector of the table's data, and in the new ones it is the last one with a used slot.
pub fn an_append_changes_one_sector()
    ensures { AppendChangesOneSector }
{}

/// So an append that was stopped among its writes of the table is read as the table before it or the one behind it,
/// where one sector more of the table's segment is lost.
pub fn one_loss_of_an_append()
    ensures { StoppedAppendReadsEither }
{}

/// Once all writes of an append are done, and one sector of the table's segment is lost, the table with the volume is
/// read.
pub fn one_loss_of_a_done_append()
    ensures { DoneAppendReadsNew }
{}

/// A cartridge that differs from one that stands for a plain cartridge in the table's segment alone, and says that
/// one's data of the table, comes back as that one: it is mounted so, also once a stop has cut its settling off, and
/// where it is not protected it stands for that one when it is settled, its header copies as clean as they were. So does
/// a settled cartridge with one sector of its table's segment lost.
pub fn table_alone_comes_back()
    ensures back { TableAloneComesBack }
    ensures settled { SettledComesBack }
    ensures clean { TableAloneIsClean }
{}

/// So an append that was stopped among its writes of the table, with one sector more of the table's segment lost and
/// nothing else, comes back as the plain cartridge without the volume or as that with it; and one whose writes were all
/// done, as that with it.
pub fn one_loss_of_an_append_comes_back()
    ensures stopped { StoppedAppendComesBack }
    ensures done { DoneAppendComesBack }
{}
