//! How a run ends.

ghost use Rattle.std.specs.Prelude.{◌≡◌, ◌≤◌, ◌++◌, length};
ghost use Rattle.pulse_trace.specs.Runs.{status_code};
ghost use Rattle.pulse_trace.specs.Texts.{plain_text, status_text};

use message_text::HintLine;

/// How a run ended.
#[derive(Clone, Copy)]
pub enum TraceStatus {
    /// The recording was read to its end, and its dialogue written.
    Done,
    /// The words are not those of this command.
    Usage,
    /// A line, counted from 1, is none, with `place` bytes before it; the dialogue of the lines before was written.
    TraceFault { line: u32, place: u64 },
    /// A read of the source failed.
    SourceFault,
    /// A write to the sink failed.
    SinkFault,
    /// There was no memory to read the words.
    NoMemory,
}

impl TraceStatus {
    /// The exit status of the program.
    pub fn code(self) -> u8
        ensures { result ≡ status_code self }
    {
        match self {
            TraceStatus::Done => 0,
            TraceStatus::Usage => 2,
            TraceStatus::TraceFault { .. } => 3,
            TraceStatus::SourceFault => 16,
            TraceStatus::SinkFault => 17,
            TraceStatus::NoMemory => 19,
        }
    }
}

/// The text of a status without a number; none for one with a number, and for a run that did all.
fn plain_text(status: TraceStatus) -> &'static [u8]
    ensures text { result.now ≡ plain_text status }
    ensures short { length result.now ≤ 60 }
{
    match status {
        TraceStatus::Usage => b"usage: pulse_trace [--gap MICROSECONDS] (1 to 1000000)\n",
        TraceStatus::SourceFault => b"pulse_trace: standard input can't be read\n",
        TraceStatus::SinkFault => b"pulse_trace: standard output can't be written\n",
        TraceStatus::NoMemory => b"pulse_trace: out of memory\n",
        TraceStatus::Done | TraceStatus::TraceFault { .. } => b"",
    }
}

/// The line of a status; none for a run that did all.
pub fn status_line(status: TraceStatus) -> HintLine
    ensures { result ≡ status_text status }
{
    let mut text = HintLine::new();
    if let TraceStatus::TraceFault { line, .. } = status {
        text.push(b"pulse_trace: line ");
        text.push_number(u64::from(line));
        text.push(b" is not valid\n");
    } else {
        text.push(plain_text(status));
    }
    text
}
