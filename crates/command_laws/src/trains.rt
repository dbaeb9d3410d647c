//! Laws of the plain machine of `pulses`. Each is the contract of a function that does nothing.

ghost use Rattle.command_laws.specs.PulseLaws.{PulsesHaveAnOutcome, PulsesHaveOneOutcome, TrainsAreLines, FaultsAreBehind, FrontsDoFronts, StopsLeave};

/// Each input has an outcome.
pub fn each_input_has_an_outcome()
    ensures { PulsesHaveAnOutcome }
{}

/// What the drive knows of its cartridge and an input have one outcome.
pub fn an_input_has_one_outcome()
    ensures { PulsesHaveOneOutcome }
{}

/// An input begins with the lines of its trains, of which there are at most 65,536.
pub fn an_input_begins_with_its_trains()
    ensures { TrainsAreLines }
{}

/// The line at fault is the one behind the trains, and its place counts the bytes of their lines.
pub fn a_fault_is_behind_the_trains()
    ensures { FaultsAreBehind }
{}

/// What a front of the trains does to the cartridge and prints is a front of what they all do and print.
pub fn a_front_of_the_trains_does_a_front()
    ensures { FrontsDoFronts }
{}

/// A stop in trains leaves the cartridge as it was, or referenced.
pub fn a_stop_leaves_the_cartridge_or_references_it()
    ensures { StopsLeave }
{}
