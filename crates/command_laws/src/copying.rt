//! What a copy onto another cartridge comes to. Each law is the contract of a function that does nothing, so that other
//! crates can rest on it; their proofs import the lemmas of this crate's `proofs`.

ghost use Rattle.command_laws.specs.CopyLaws.{CopiedTableLives, CopiesOneThing, CopiesSomething, CopyGoesOn, CopyWithRoomIsDone, DoneCopyGives, DoneCopyStands, PrintedCopiesStand, PrintedCopyGives, StoppedCopyGives, StoppedCopyStands, StoppedSourceStands};
ghost use Rattle.command_laws.specs.CopyIntact.{CopyRunAgain, CopyRunAgainIsDone, DoneCopyComesBack, PrintedCopyComesBack, StoppedCopyCanBeRead, StoppedCopyComesBack};
ghost use Rattle.command_laws.specs.CopyRoom.{FullAnswerNamesRoom, FullCopyNamesRoom};

use qic_base::{Sink, Tape};

/// A copy has one status and prints one text.
pub fn a_copy_is_one()
    ensures { CopiesOneThing }
{}

/// A copy comes to something, whatever the sectors of the cartridges hold.
pub fn a_copy_has_an_outcome()
    ensures { CopiesSomething }
{}

/// On cartridges that stand for plain ones, alike in the volumes that both have, a copy leaves the target with all missing
/// volumes at Done, also where sectors of its volume table take no write; and where each of these takes one, a stop in it
/// with some of them, in their order. The source stands for what it stood for, done or stopped.
pub fn a_copy_adds_the_missing_volumes()
    ensures done { DoneCopyStands }
    ensures stopped { StoppedCopyStands }
    ensures source { StoppedSourceStands }
{}

/// Whatever the source is, and what its sectors hold, a copy leaves the target with some of the missing volumes, in their order
/// and each just as a restore of it gives it; with those whose lines were written whole; and with all of them at Done.
pub fn a_copy_gives_what_a_restore_gives()
    ensures done { DoneCopyGives }
    ensures stopped { StoppedCopyGives }
    ensures printed { PrintedCopyGives }
{}

/// A copy, done or stopped, leaves each sector of the target's volume table taking writes, where each did.
pub fn a_copied_table_lives()
    ensures { CopiedTableLives }
{}

/// A copy that goes on behind some of the missing volumes adds the rest of them, and makes what it would have made without a
/// stop.
pub fn a_copy_goes_on()
    ensures { CopyGoesOn }
{}

/// A copy is Done where each missing volume has room, each of its segments that holds some of its bytes has at most three
/// unreadable sectors, both volume tables can be read, and the target takes writes.
pub fn a_copy_with_room_is_done()
    ensures { CopyWithRoomIsDone }
{}

/// A stop in a copy, once some of its text was written, leaves the target with at least those volumes whose lines were
/// written whole.
pub fn printed_copies_stand()
    ensures { PrintedCopiesStand }
{}

/// A copy that is refused as full names the length of the first volume that was not copied, and just the room behind the
/// target's volumes and those that were.
pub fn a_full_copy_names_the_room<A: Tape, B: Tape, K: Sink>()
    ensures outcome { FullCopyNamesRoom }
    ensures answer { FullAnswerNamesRoom A.means B.means K.means }
{}

/// The target of a copy comes back where then one sector more of its table's segment is lost, whatever the source is: with
/// the volumes whose lines were written whole, and with all of them at Done.
pub fn the_target_of_a_copy_comes_back()
    ensures done { DoneCopyComesBack }
    ensures stopped { StoppedCopyComesBack }
    ensures printed { PrintedCopyComesBack }
{}

/// The volume table of a target that a stopped copy leaves can be read, where it could be before. A copy that is run again over
/// what was left of both cartridges leaves all of the volumes at Done, as one without a stop does; and where all was there that
/// the first one needed, it is Done.
pub fn a_copy_run_again<A: Tape, B: Tape, K: Sink>()
    ensures reads { StoppedCopyCanBeRead }
    ensures done { CopyRunAgain A.means B.means K.means }
    ensures complete { CopyRunAgainIsDone A.means B.means K.means }
{}
