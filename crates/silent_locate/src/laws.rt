//! The laws of the deep reading. Each is the contract of a function that does nothing, so that other crates can rest on
//! it; their proofs import the lemmas of this crate's `proofs`.

ghost use Rattle.silent_locate.specs.Laws.{OneDeepReading, WrongPlaceDiffers, OneWrongIsFound, DeepByReadable};

/// There is at most one such pair of a code block and a place.
pub fn one_deep_reading()
    ensures { OneDeepReading }
{}

/// The place is that of a cell that can be read and holds other bytes than the block's.
pub fn wrong_place_differs()
    ensures { WrongPlaceDiffers }
{}

/// One wrong cell among those that can be read is found, with at most one that can't be read.
pub fn one_wrong_is_found()
    ensures { OneWrongIsFound }
{}

/// The reading depends on the cells that can be read, and on nothing else.
pub fn deep_by_readable()
    ensures { DeepByReadable }
{}
