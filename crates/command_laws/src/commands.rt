//! Laws of the plain machine. Each is the contract of a function that does nothing.

ghost use Rattle.command_laws.specs.CommandLaws.{MachineIsFunction, MachineAnswers, OneOutcome, DoneWhereAllIsThere, OnlyNewRenews, LeavesWhole, CopiesStayClean, CopiesStayBare};

/// Words, what the drive holds and the input determine what is held then, the output, the bytes taken and the status.
pub fn machine_is_function()
    ensures { MachineIsFunction }
{}

/// Over any words, a whole cartridge or none, and any input the machine makes a step.
pub fn machine_answers()
    ensures { MachineAnswers }
{}

/// A command has one outcome: its acts, the bytes taken and the answer.
pub fn a_command_has_one_outcome()
    ensures { OneOutcome }
{}

/// Where all is there that a command needs it is carried out: a cartridge that mounts, room, a volume that can be read,
/// an input without a fault.
pub fn a_command_with_its_needs_is_done()
    ensures { DoneWhereAllIsThere }
{}

/// No command but `new` puts in a new cartridge.
pub fn only_new_puts_in_a_cartridge()
    ensures { OnlyNewRenews }
{}

/// Each command leaves a whole cartridge or none at any moment, where it began with one or with none and its input is one of bytes.
pub fn what_is_left_is_whole()
    ensures { LeavesWhole }
{}

/// Header copies that formatting may begin over, clean or bare ones, stay so at any moment of a command but `new` and
/// `format`.
pub fn header_copies_stay()
    ensures clean { CopiesStayClean }
    ensures bare { CopiesStayBare }
{}
