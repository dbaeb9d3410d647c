//! What a sample of the track-0 line says, by what was said before it.

ghost use Rattle.std.specs.Prelude.{◌≡◌, ◌++◌, ◌+◌, ◌≤◌, length, codes, Some};
ghost use Rattle.pulse_dialogue.specs.Dialogue.{IsSound, hex_digit, hex_digits, sample_line, heard_in_report, heard_level};

use crate::context::Context;
use qic117_commands::Collector;
use tape_script::TextLine;

fn hex_digit(n: u16) -> u8
    ensures { result ≡ hex_digit n }
{
    let digit = (n % 16) as u8;
    if digit < 10 {
        b'0' + digit
    } else {
        b'A' - 10 + digit
    }
}

/// Four hexadecimal digits, in capitals.
fn hex_digits(n: u16) -> [u8; 4]
    ensures { result ≡ hex_digits n }
{
    [
        hex_digit(n / 4096),
        hex_digit(n / 256),
        hex_digit(n / 16),
        hex_digit(n),
    ]
}

/// The end of a report, or its next bit.
fn tell_report(collector: Collector, time: u32, line: &mut TextLine) -> Context
    requires within { length collector.levels ≤ collector.width + 1 }
    requires room { length line.old ≤ 100 }
    ensures context { result ≡ (heard_in_report collector).context }
    ensures text { line.new ≡ line.old ++ sample_line time (heard_in_report collector).text }
    ensures sound { IsSound result }
{
    if !collector.is_full() {
        return Context::Report {
            collector,
            awaits: false,
        };
    }
    line.push_number(u64::from(time));
    line.push_text(b" ");
    match collector.word() {
        Some(word) => {
            line.push_text(b"word 0x");
            line.push_text(&hex_digits(word));
        }
        None => line.push_text(b"no final bit"),
    }
    line.push_text(b"\n");
    Context::Nothing
}

/// A report that the drive does not begin.
fn tell_refusal(time: u32, line: &mut TextLine)
    requires { length line.old ≤ 100 }
    ensures { line.new ≡ line.old ++ sample_line time (Some (codes "not acknowledged")) }
{
    line.push_number(u64::from(time));
    line.push_text(b" ");
    line.push_text(b"not acknowledged");
    line.push_text(b"\n");
}

impl Context {
    /// Puts what a sample says into the line, nothing or a whole line, and answers the context behind it.
    pub fn tell_level(self, time: u32, level: bool, line: &mut TextLine) -> Context
        requires sound { IsSound self }
        requires room { length line.old ≤ 100 }
        ensures context { result ≡ (heard_level self level).context }
        ensures text { line.new ≡ line.old ++ sample_line time (heard_level self level).text }
        ensures sound { IsSound result }
    {
        match self {
            Context::Nothing => Context::Nothing,
            Context::Parameter { trains } => Context::Parameter { trains },
            Context::Acknowledgement { width } => {
                if level {
                    return Context::Report {
                        collector: Collector::new(width),
                        awaits: false,
                    };
                }
                tell_refusal(time, line);
                Context::Nothing
            }
            Context::Report {
                mut collector,
                awaits,
            } => {
                if !awaits {
                    return Context::Report { collector, awaits };
                }
                collector.push(level);
                tell_report(collector, time, line)
            }
        }
    }
}
