//! What a check names of the volume table's segment behind an append that was stopped. Each law is the contract of a function
//! that does nothing, so that other crates can rest on it; their proofs import the lemmas of this crate's `proofs`.

ghost use Rattle.check_laws.specs.NamingLaws.{StoppedAppendNamesNone, StoppedSettlingNamesNone, NextAppendNamesNone};

/// An append that was stopped before its first step, inside one or behind any of them, the last too, leaves no sector of the
/// table's segment that a check names, whichever sectors of that are lost besides. So does the settling of the table and the
/// next append, stopped or not, where at most one sector was lost before it.
pub fn a_stopped_append_is_not_named()
    ensures stopped { StoppedAppendNamesNone }
    ensures settling { StoppedSettlingNamesNone }
    ensures next { NextAppendNamesNone }
{}
