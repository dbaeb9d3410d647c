//! What a train says, by what was said before it.

ghost use Rattle.std.specs.Prelude.{◌≡◌, ◌++◌, ◌+◌, ◌-◌, ◌≤◌, length, codes, decimal};
ghost use Rattle.qic117_commands.specs.Commands.{command_at};
ghost use Rattle.pulse_dialogue.specs.Dialogue.{IsSound, begun_by, given_up, one_fewer, said_of, said_in, said_by_train};

use qic117_commands::{Collector, Command, command_of};
use tape_script::TextLine;

/// What is awaited where a train comes, or a sample.
#[derive(Drop)]
pub enum Context {
    /// A command.
    Nothing,
    /// So many trains of a parameter.
    Parameter { trains: u8 },
    /// The acknowledgement of a report of 8 or 16 bits.
    Acknowledgement { width: u8 },
    /// The call for a report's next bit or, where `awaits`, the bit's level.
    Report { collector: Collector, awaits: bool },
}

/// What follows a command (QIC-117).
fn begun_by(command: Command) -> Context
    ensures context { result ≡ begun_by command }
    ensures sound { IsSound result }
{
    match command {
        Command::SeekTrack => Context::Parameter { trains: 1 },
        Command::SkipReverse | Command::SkipForward => Context::Parameter { trains: 2 },
        Command::SetFormatSegments => Context::Parameter { trains: 3 },
        Command::ReportStatus
        | Command::ReportConfiguration
        | Command::ReportRom
        | Command::ReportTapeStatus => Context::Acknowledgement { width: 8 },
        Command::ReportError | Command::ReportVendor | Command::ReportFormatSegments => {
            Context::Acknowledgement { width: 16 }
        }
        _ => Context::Nothing,
    }
}

/// A command of its own.
fn tell_command(count: u8, text: &mut TextLine) -> Context
    requires { length text.old ≤ 100 }
    ensures context { result ≡ (said_of (command_at count)).context }
    ensures text { text.new ≡ text.old ++ (said_of (command_at count)).text }
    ensures short { length text.new ≤ length text.old + 30 }
    ensures sound { IsSound result }
{
    match command_of(count) {
        Some(command) => {
            text.push_text(command.name().as_bytes());
            begun_by(command)
        }
        None => {
            text.push_text(b"undefined");
            Context::Nothing
        }
    }
}

/// A value of a parameter.
fn tell_value(trains: u8, count: u8, text: &mut TextLine) -> Context
    requires { length text.old ≤ 100 }
    ensures context { result ≡ one_fewer trains }
    ensures text { text.new ≡ text.old ++ codes "value " ++ decimal (count - 2) }
    ensures short { length text.new ≤ length text.old + 30 }
    ensures sound { IsSound result }
{
    text.push_text(b"value ");
    text.push_number(u64::from(count.saturating_sub(2)));
    if trains > 1 {
        Context::Parameter { trains: trains - 1 }
    } else {
        Context::Nothing
    }
}

impl Context {
    /// An acknowledgement or a level that is awaited is given up.
    fn given_up(self) -> Context
        requires { IsSound self }
        ensures context { result ≡ given_up self }
        ensures sound { IsSound result }
    {
        match self {
            Context::Nothing | Context::Acknowledgement { .. } => Context::Nothing,
            Context::Parameter { trains } => Context::Parameter { trains },
            Context::Report { collector, awaits } => {
                if awaits {
                    Context::Nothing
                } else {
                    Context::Report { collector, awaits }
                }
            }
        }
    }

    /// A train of any number but 1.
    fn tell_in(self, count: u8, text: &mut TextLine) -> Context
        requires sound { IsSound self }
        requires room { length text.old ≤ 100 }
        ensures context { result ≡ (said_in self count).context }
        ensures text { text.new ≡ text.old ++ (said_in self count).text }
        ensures short { length text.new ≤ length text.old + 30 }
        ensures sound { IsSound result }
    {
        match self {
            Context::Parameter { trains } => tell_value(trains, count, text),
            Context::Report { collector, .. } => {
                if count == Command::ReportNextBit.number() {
                    text.push_text(b"next bit");
                    Context::Report {
                        collector,
                        awaits: true,
                    }
                } else {
                    text.push_text(b"refused in report");
                    Context::Nothing
                }
            }
            Context::Nothing | Context::Acknowledgement { .. } => tell_command(count, text),
        }
    }

    /// Puts the words for a train into the line, and answers the context behind it.
    pub fn tell_train(self, count: u8, text: &mut TextLine) -> Context
        requires sound { IsSound self }
        requires room { length text.old ≤ 100 }
        ensures context { result ≡ (said_by_train self count).context }
        ensures text { text.new ≡ text.old ++ (said_by_train self count).text }
        ensures short { length text.new ≤ length text.old + 30 }
        ensures sound { IsSound result }
    {
        if count == Command::Reset.number() {
            text.push_text(b"Reset");
            return Context::Nothing;
        }
        self.given_up().tell_in(count, text)
    }
}
