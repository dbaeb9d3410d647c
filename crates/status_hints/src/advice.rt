//! What is advised after a status.

ghost use Rattle.std.specs.Prelude.{◌≡◌, ◌+◌, ◌≤◌, ◌++◌, None, Some, length};
ghost use Rattle.status_hints.specs.Advice.{advice, advised, plainly, seen, with_number};

use command_spec::Status;
use message_text::HintLine;
use qic_base::ForeignField;

/// A text, with a number in it or without.
#[derive(Clone, Copy)]
struct Parts {
    before: &'static str,
    number: Option<u64>,
    after: &'static str,
}

fn plainly(text: &'static str) -> Parts
    ensures { seen result ≡ plainly text.now }
{
    Parts {
        before: text,
        number: None,
        after: "",
    }
}

fn with_number(before: &'static str, number: u64, after: &'static str) -> Parts
    ensures { seen result ≡ with_number before.now number after.now }
{
    Parts {
        before,
        number: Some(number),
        after,
    }
}

/// What is advised after a status; nothing after that of a command that was carried out, or of words that are no command.
fn advice(status: Status, restores: bool) -> Parts
    ensures text { seen result ≡ advice status restores }
    ensures short { length result.before.now + length result.after.now ≤ 130 }
{
    match status {
        Status::Done | Status::Usage => plainly(""),
        Status::ScriptFault { .. } => {
            plainly("the line is not valid; those before it were carried out")
        }
        Status::NoCartridge => plainly(
            "it holds no cartridge, or a 'new' or an import was interrupted; check the path",
        ),
        Status::Protected => plainly("write-protected; 'protect off' clears the mark"),
        Status::NotFormatted => plainly(
            "no header can be read: if this cartridge was ever in use, do not format it; run check",
        ),
        Status::Foreign {
            field: ForeignField::Slot | ForeignField::Range,
            ..
        } => plainly(
            "the volume table has an invalid entry; run check, and see EXIT STATUS 7 in man tape",
        ),
        Status::Foreign { .. } => plainly(
            "another layout, or damage: keep the image; tape_export and tape_salvage can read it",
        ),
        Status::TableMismatch => plainly(
            "the volume table is corrupt: keep the image, and see EXIT STATUS 8 in man tape",
        ),
        Status::Full { have: 0, .. } => plainly("there is no room for another volume"),
        Status::Full { have, .. } => {
            with_number("there is room for a volume of ", have, " bytes")
        }
        Status::NoVolume { .. } => plainly("'list' shows the volumes"),
        Status::Lost { segment: 2, .. } => plainly(
            "the volume table can't be read: keep the image, and see EXIT STATUS 11 in man tape",
        ),
        Status::Lost { segment, .. } => {
            if restores {
                with_number(
                    "the output is incomplete: it ends before segment ",
                    u64::from(segment),
                    "; tape_salvage gives what is left",
                )
            } else {
                with_number(
                    "segment ",
                    u64::from(segment),
                    " can't be read: parity recovers at most 3 lost sectors",
                )
            }
        }
        Status::Mismatch { segment } => {
            if restores {
                with_number(
                    "the output is incomplete: it ends before segment ",
                    u64::from(segment),
                    "; try 'scrub deep' on a copy",
                )
            } else {
                with_number(
                    "segment ",
                    u64::from(segment),
                    " contradicts its parity; try 'scrub deep' on a copy",
                )
            }
        }
        Status::DefectInFront { .. } => {
            plainly("it can't be formatted: segments 0 to 2 must have no bad sector")
        }
        Status::NotBlank => plainly("only a sector that was never formatted can be made a defect"),
        Status::BadPlace => {
            plainly("'info' shows how many segments there are; sectors are 0 to 31")
        }
        Status::SourceFault => plainly("the input can't be read"),
        Status::SinkFault => plainly("the output can't be written"),
        Status::TapeFault => plainly("the image can't be read or written"),
        Status::NoMemory => plainly("out of memory"),
        Status::Unsound { .. } => plainly("damaged; see EXIT STATUS 21 in man tape"),
    }
}

/// Appends what is advised after a status to a line.
pub(crate) fn push_advice(line: &mut HintLine, status: Status, restores: bool)
    requires { length line.old ≤ 340 }
    ensures text { line.new ≡ line.old ++ advised (advice status restores) }
    ensures short { length line.new ≤ length line.old + 150 }
{
    let advice = advice(status, restores);
    line.push(advice.before.as_bytes());
    if let Some(number) = advice.number {
        line.push_number(number);
    }
    line.push(advice.after.as_bytes());
}
