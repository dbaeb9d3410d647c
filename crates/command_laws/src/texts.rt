//! Laws of the words, of the inputs and of the printed texts. Each is the contract of a function that does nothing;
//! their proofs import the lemmas of this crate's `proofs`.

ghost use Rattle.command_spec.specs.Input.{IsItem, IsPulse};
ghost use Rattle.command_laws.specs.TextInput.{OneLine, NoItemBegins, OneReading, EachReading};
ghost use Rattle.command_laws.specs.TextLaws.{DateIsPrintedAsRead, NameIsPrintedAsRead};
ghost use Rattle.command_laws.specs.TextWords.{OneCommand, EachWords};

/// Each list of words has at most one command.
pub fn one_command()
    ensures { OneCommand }
{}

/// Each list of words is that of a command or of none.
pub fn words_are_a_command_or_none()
    ensures { EachWords }
{}

/// Each list of words has at most one line of a script.
pub fn one_line()
    ensures { OneLine }
{}

/// No item of a script is a proper prefix of another, and no text is that of two items.
pub fn no_item_begins_another()
    ensures script { NoItemBegins IsItem }
    ensures pulses { NoItemBegins IsPulse }
{}

/// The items of an input, and what ends them, are unique.
pub fn an_input_has_one_reading()
    ensures script { OneReading IsItem }
    ensures pulses { OneReading IsPulse }
{}

/// Each input has items and what ends them, be it a fault.
pub fn each_input_has_a_reading()
    ensures script { EachReading IsItem }
    ensures pulses { EachReading IsPulse }
{}

/// A date that is read is printed as it was written.
pub fn date_is_printed_as_read()
    ensures { DateIsPrintedAsRead }
{}

/// A name that is read is printed as it was written.
pub fn name_is_printed_as_read()
    ensures { NameIsPrintedAsRead }
{}
