//! The printed lines.

ghost use Rattle.std.specs.Prelude.{◌≡◌};
ghost use Rattle.command_spec.specs.Check.{verdict_line};
ghost use Rattle.cartridge_check.specs.Checking.{tally_line};

use crate::tally::Tally;
use command_spec::Verdict;
use tape_script::{TextLine, number_text, place_text};

/// The line of a segment, empty where it is sound.
pub(crate) fn verdict_text(segment: u32, verdict: Verdict) -> TextLine
    ensures { result ≡ verdict_line segment verdict }
{
    let segment = u64::from(segment);
    match verdict {
        Verdict::Sound => TextLine::new(),
        Verdict::Weak { lost } => place_text(b"weak", segment, u64::from(lost)),
        Verdict::Wrong { sector } => place_text(b"wrong", segment, u64::from(sector)),
        Verdict::Unsettled => number_text(b"unsettled", segment),
        Verdict::Contradicts => number_text(b"mismatch", segment),
        Verdict::Gone { lost } => place_text(b"lost", segment, u64::from(lost)),
    }
}

/// The counts.
pub(crate) fn counts_text(tally: Tally) -> TextLine
    ensures { result ≡ tally_line tally }
{
    let mut line = TextLine::new();
    line.push_text(b"check ");
    line.push_number(u64::from(tally.segments));
    line.push_text(b" ");
    line.push_number(u64::from(tally.mendable));
    line.push_text(b" ");
    line.push_number(u64::from(tally.bad));
    line.push_text(b"\n");
    line
}
