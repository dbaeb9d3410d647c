//! A law of outputs that a fault cut off. It is the contract of a function that does nothing.

ghost use Rattle.dump_output.specs.Laws.{FrontsBegin};

/// What the first of some segments give begins what all of them give.
pub fn fronts_begin()
    ensures { FrontsBegin }
{}
