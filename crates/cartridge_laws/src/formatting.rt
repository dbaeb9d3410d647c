//! What the steps of formatting leave, done or stopped. Each is the contract of a function that does nothing, so that
//! other crates can rest on it; their proofs import the lemmas of this crate's `proofs`.

ghost use Rattle.cartridge_laws.specs.FormatLaws.{CopyWritesByPlaces, NewHasNoHeader, ClearingClears, ClearedShowsDefects, ClearedCopiesAreZero, ClearedIsUnformatted, FormattingFormats, FormattedStands, FormattedIsLive, FormattedIsMarked, StoppedClearing, StoppedClearingNew, StoppedFormat, StoppedFormatNew};

/// The reference bursts and the formatting of all segments clear a cartridge. One that was cleared shows its
/// defects, and is unformatted.
pub fn clearing_clears()
    ensures clears { ClearingClears }
    ensures defects { ClearedShowsDefects }
    ensures copies { ClearedCopiesAreZero }
    ensures unformatted { ClearedIsUnformatted }
{}

/// The writes of a header copy are those to all its sectors but the first, and then to the first.
pub fn copy_writes_by_places()
    ensures { CopyWritesByPlaces }
{}

/// All steps format a cartridge that has no defect in front.
pub fn formatting_formats()
    ensures { FormattingFormats }
{}

/// A cartridge that was formatted with a fresh header stands for the empty one, each sector of its table's segment takes a
/// write, and the header's map marks its defects.
pub fn formatted_stands()
    ensures empty { FormattedStands }
    ensures live { FormattedIsLive }
    ensures marked { FormattedIsMarked }
{}

/// A new cartridge has no header: its sectors were never formatted.
pub fn new_has_no_header()
    ensures { NewHasNoHeader }
{}

/// A stop among the first steps leaves what stood, with clean header copies, or bare ones, and so an unformatted cartridge.
pub fn stopped_clearing()
    ensures standing { StoppedClearing }
    ensures new { StoppedClearingNew }
{}

/// A stop among all steps leaves what stood, with clean header copies, or an unformatted cartridge, or the empty one, whose
/// table's segment takes writes.
pub fn stopped_format()
    ensures standing { StoppedFormat }
    ensures new { StoppedFormatNew }
{}
