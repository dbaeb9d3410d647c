//! What the state table amounts to. These functions do nothing; each contract is a law, and the check proves it.

ghost use Rattle.drive_states.specs.Laws.{OneTrainWrites, RowsKeepBounds, RowsKeepMarks};

/// A gap after any train leaves a record within its bounds: the row is total on them.
pub fn rows_keep_bounds()
    ensures { RowsKeepBounds }
{}

/// After any train but the one that writes the reference bursts a gap does nothing to the cartridge.
pub fn one_train_writes()
    ensures { OneTrainWrites }
{}

/// The marks that the drive knows of are those that the cartridge had when it was put in, and the reference bursts
/// that were written since.
pub fn rows_keep_marks()
    ensures { RowsKeepMarks }
{}
