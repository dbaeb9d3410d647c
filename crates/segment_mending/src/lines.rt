//! The printed lines.

ghost use Rattle.std.specs.Prelude.{◌≡◌, ℕ, List, Some, false};
ghost use Rattle.cartridge_spec.specs.Says.{LostSectors, Mismatch};
ghost use Rattle.command_spec.specs.Scrub.{reads, fault_line, line_in, counts_line, wrong_line};
ghost use Rattle.segment_mending.specs.Locating.{unread_saying};
ghost use Rattle.segment_mending.specs.Mending.{reported};
ghost use Rattle.segment_mending.specs.Lines.{header_line};

use crate::HEADER_COPIES;
use crate::locating::Unread;
use crate::report::ScrubReport;
use tape_script::TextLine;

/// A segment does not read.
pub(crate) fn unread_text(segment: u32, why: Unread) -> TextLine
    ensures { (usable : ℕ) (sectors : List (List ℕ)) →
        reads (record { segment = segment; mask = usable })
        (unread_saying (record { segment = segment; mask = usable }) why sectors) ≡ false →
        result ≡ line_in (record { segment = segment; mask = usable })
        (unread_saying (record { segment = segment; mask = usable }) why sectors) }
{
    match why {
        _ if segment < HEADER_COPIES => header_text(segment),
        Unread::NoHeader => header_text(segment),
        Unread::Lost(lost) => lost_text(segment, lost),
        Unread::Mismatch => mismatch_text(segment),
    }
}

/// A header copy does not read.
fn header_text(copy: u32) -> TextLine
    ensures { result ≡ header_line copy }
{
    let mut line = TextLine::new();
    line.push_text(b"header ");
    line.push_number(u64::from(copy));
    line.push_text(b" unreadable\n");
    line
}

/// So many usable sectors of a segment are unreadable.
fn lost_text(segment: u32, lost: u8) -> TextLine
    ensures { result ≡ fault_line segment (LostSectors lost) }
{
    let mut line = TextLine::new();
    line.push_text(b"lost ");
    line.push_number(u64::from(segment));
    line.push_text(b" ");
    line.push_number(u64::from(lost));
    line.push_text(b"\n");
    line
}

/// No code block agrees with a segment's sectors.
fn mismatch_text(segment: u32) -> TextLine
    ensures { result ≡ fault_line segment Mismatch }
{
    let mut line = TextLine::new();
    line.push_text(b"mismatch ");
    line.push_number(u64::from(segment));
    line.push_text(b"\n");
    line
}

/// The sector with an index is wrong.
pub(crate) fn wrong_text(segment: u32, sector: u8) -> TextLine
    ensures { result ≡ wrong_line segment (Some sector) }
{
    let mut line = TextLine::new();
    line.push_text(b"wrong ");
    line.push_number(u64::from(segment));
    line.push_text(b" ");
    line.push_number(u64::from(sector));
    line.push_text(b"\n");
    line
}

/// The counts.
pub(crate) fn counts_text(report: ScrubReport) -> TextLine
    ensures { result ≡ counts_line (reported report) }
{
    let mut line = TextLine::new();
    line.push_text(b"scrub ");
    line.push_number(u64::from(report.segments));
    line.push_text(b" ");
    line.push_number(u64::from(report.mended));
    line.push_text(b" ");
    line.push_number(u64::from(report.unreadable));
    line.push_text(b"\n");
    line
}
