//! The law of this crate, the contract of a function that does nothing, so that others can rest on it.

ghost use Rattle.erasure_solve.specs.Laws.{OneSolution};

/// At most one code block agrees with the sectors of a segment of which at most three are lost.
pub fn one_solution()
    ensures { OneSolution }
{}
