//! What the drive's end of the cable is in the middle of.

use qic117_commands::{Command, Shifter};

/// A parameter awaited: the command that awaits it, the values that came, 0 to 2, and the number that they make so
/// far, the first of them lowest (QIC-117).
#[derive(Clone, Copy)]
pub struct Parameter {
    pub command: Command,
    pub taken: u8,
    pub value: u16,
}

/// What the next train belongs to: a command of its own, a report that shows its levels, or a parameter.
#[derive(Drop)]
pub enum UnderWay {
    Nothing,
    Report(Shifter),
    Awaited(Parameter),
}
