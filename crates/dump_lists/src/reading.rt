//! The reading of a list.

ghost use Rattle.std.specs.Prelude.{◌≡◌, ◌≢◌, ◌<◌, ◌≤◌, List, length, Err};
ghost use Rattle.std.specs.Option.{option_and_then};
ghost use Rattle.qic_base.specs.Tape.{Rose};
ghost use Rattle.rescue_map.specs.Lines.{content_of};
ghost use Rattle.dump_spec.specs.Lists.{line_numbers, missing_named, bad_named};
ghost use Rattle.dump_lists.specs.Masks.{IsMaskOf, IsMissingSet, IsBadSet};
ghost use Rattle.dump_lists.specs.Names.{BitRange, bits_named};
ghost use Rattle.dump_lists.specs.Reads.{ReadsList, Moves};

use crate::line::{LineRead, TOO_LONG, content, read_line};
use crate::names::{ListKind, Named, names_of};
use crate::numbers::read_numbers;
use qic_base::{Source, SourceFailed};
use rescue_map::{Ahead, clear, mark, next_byte};

/// The most lines of a list.
const MOST_LINES: u32 = 1_048_576;

/// Why a list was not read: its first line at fault, counted from 1; or a failure of the source.
#[derive(Clone, Copy, Debug, PartialEq, Eq)]
pub enum ListError {
    Fault { line: u32 },
    Source,
}

/// A line more. Whether it has the form.
fn take_line(kind: ListKind, line: &[u8], ended: bool, mask: &mut [u32]) -> bool
    ensures { (ranges : List BitRange) → IsMaskOf ranges mask.old → Moves mask.new ranges
        (option_and_then (bits_named kind) (line_numbers (content_of record { bytes = line.now; ended = ended }))) result }
{
    match names_of(kind, read_numbers(content(line, ended))) {
        Named::Nothing => true,
        Named::Bits { first, end } => {
            mark(mask, u64::from(first), u64::from(end));
            true
        }
        Named::Fault => false,
    }
}

/// Reads a list to its end or to its first line at fault, and makes the mask of what it names.
fn read_list<S: Source>(
    source: &mut S,
    buffer: &mut [u8],
    kind: ListKind,
    mask: &mut [u32],
) -> Result<(), ListError>
    requires { 0 < length buffer.old }
    ensures reads { ReadsList (bits_named kind) IsMaskOf S.means source.old source.new mask.new result }
    ensures stood { result ≢ Err ListError.Source →
        S.means.faults source.new ≡ S.means.faults source.old }
    ensures cause { result ≡ Err ListError.Source →
        Rose (S.means.faults source.old) (S.means.faults source.new) }
    ensures later { S.means.faults source.old ≤ S.means.faults source.new }
    ensures kept { S.means.keeps source.old source.new }
{
    clear(mask);
    let mut line = [0; TOO_LONG];
    let mut ahead = Ahead { at: 0, end: 0 };
    for number in 0..MOST_LINES {
        match read_line(source, buffer, &mut ahead, &mut line) {
            Ok(LineRead::End) => return Ok(()),
            Ok(LineRead::Long) => return Err(ListError::Fault { line: number + 1 }),
            Ok(LineRead::Line { len, ended }) => {
                if !take_line(kind, &line[..len], ended, mask) {
                    return Err(ListError::Fault { line: number + 1 });
                }
                if !ended {
                    return Ok(());
                }
            }
            Err(SourceFailed) => return Err(ListError::Source),
        }
    }
    match next_byte(source, buffer, &mut ahead) {
        Ok(None) => Ok(()),
        Ok(Some(_)) => Err(ListError::Fault {
            line: MOST_LINES + 1,
        }),
        Err(SourceFailed) => Err(ListError::Source),
    }
}

/// Reads the list of the segments that a dump lacks, to its end or to its first line at fault, and makes the set of them: a
/// bit for each segment, as far as the words go; 2,048 words have all. What the buffer held is overwritten, and after an
/// error the set holds nothing of use.
pub fn read_missing<S: Source>(
    source: &mut S,
    buffer: &mut [u8],
    set: &mut [u32],
) -> Result<(), ListError>
    requires { 0 < length buffer.old }
    ensures reads { ReadsList missing_named IsMissingSet S.means source.old source.new set.new result }
    ensures stood { result ≢ Err ListError.Source →
        S.means.faults source.new ≡ S.means.faults source.old }
    ensures cause { result ≡ Err ListError.Source →
        Rose (S.means.faults source.old) (S.means.faults source.new) }
    ensures later { S.means.faults source.old ≤ S.means.faults source.new }
    ensures kept { S.means.keeps source.old source.new }
{
    read_list(source, buffer, ListKind::Missing, set)
}

/// Reads the list of bad sectors, to its end or to its first line at fault, and makes the masks of them: a word for each
/// segment, as far as the words go, where bit `i` is 1 if sector `i` is named; 65,536 words have all segments. What the buffer
/// held is overwritten, and after an error the masks hold nothing of use.
pub fn read_bad<S: Source>(
    source: &mut S,
    buffer: &mut [u8],
    masks: &mut [u32],
) -> Result<(), ListError>
    requires { 0 < length buffer.old }
    ensures reads { ReadsList bad_named IsBadSet S.means source.old source.new masks.new result }
    ensures stood { result ≢ Err ListError.Source →
        S.means.faults source.new ≡ S.means.faults source.old }
    ensures cause { result ≡ Err ListError.Source →
        Rose (S.means.faults source.old) (S.means.faults source.new) }
    ensures later { S.means.faults source.old ≤ S.means.faults source.new }
    ensures kept { S.means.keeps source.old source.new }
{
    read_list(source, buffer, ListKind::Bad, masks)
}
