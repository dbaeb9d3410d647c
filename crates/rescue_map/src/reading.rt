//! The reading of a map.

ghost use Rattle.std.specs.Prelude.{◌≡◌, ◌≢◌, ◌+◌, ◌<◌, ◌≤◌, ◌++◌, ◌∷◌, [], List, ℕ, length, Err};
ghost use Rattle.qic_base.specs.Tape.{Rose};
ghost use Rattle.rescue_map.specs.Form.{line_says};
ghost use Rattle.rescue_map.specs.Map.{Going, behind_all};
ghost use Rattle.rescue_map.specs.Marking.{IsBlock, Continues, Marks, Moves, Tracked};
ghost use Rattle.rescue_map.specs.Reads.{Ends, Reads};
ghost use Rattle.rescue_map.specs.Scanning.{AreWords};
ghost use Rattle.rescue_map.specs.declared.form.Block.{Block};

use crate::ahead::{Ahead, next_byte};
use crate::form::{Block, Expected, Said, line_says};
use crate::line::{LineRead, read_line};
use crate::mask::{clear, mark_block};
use crate::words::LineWords;
use qic_base::{Source, SourceFailed};

/// The most lines of a map.
const MOST_LINES: u32 = 1_048_576;

/// Why a map was not read: the first fault of its form, in this line, counted from 1; or a failure of the source.
#[derive(Clone, Copy, Debug, PartialEq, Eq)]
pub enum MapError {
    Fault { line: u32 },
    Source,
}

/// How far a map was read: what is expected next, and from which byte on all was rescued up to the last block's end.
#[derive(Clone, Copy)]
struct Progress {
    expected: Expected,
    from: u64,
}

impl Progress {
    /// From which byte on all was rescued up to this block.
    fn from_before(&self, block: Block) -> u64
        ensures { (mask : List ℕ) (blocks : List Block) → Continues self.now.expected block →
            Tracked mask blocks self.now.expected self.now.from → Marks mask blocks result block.start }
    {
        match self.expected {
            Expected::Next { .. } => self.from,
            _ => block.start,
        }
    }

    /// A block more.
    fn add(&mut self, block: Block, mask: &mut [u32])
        requires { IsBlock block }
        ensures tracked { (blocks : List Block) → Continues self.old.expected block →
            Tracked mask.old blocks self.old.expected self.old.from →
            Tracked mask.new (blocks ++ block ∷ []) self.new.expected self.new.from }
        ensures expected { self.new.expected ≡ Expected.Next (block.start + block.size) }
    {
        let from = self.from_before(block);
        *self = Progress {
            expected: Expected::Next {
                end: block.start + block.size,
            },
            from: mark_block(mask, from, block),
        };
    }

    /// A line more, with these words. Whether it has the form.
    fn take(&mut self, words: LineWords, mask: &mut [u32]) -> bool
        ensures { (blocks : List Block) (line : ℕ) (list : List (List ℕ)) → AreWords words list →
            Tracked mask.old blocks self.old.expected self.old.from →
            Moves mask.new blocks self.old.expected self.new.expected self.new.from line
            (line_says self.old.expected list) result }
    {
        match line_says(self.expected, words) {
            Said::Nothing => true,
            Said::Status => {
                self.expected = Expected::First;
                true
            }
            Said::Block { block } => {
                self.add(block, mask);
                true
            }
            Said::Bad => false,
        }
    }

    /// The map is over, in front of the line with this number.
    fn finish(&self, line: u32) -> Result<(), MapError>
        ensures ends { (blocks : List Block) →
            Ends (behind_all (Going blocks self.now.expected line)) blocks result }
        ensures form { result ≡ Err MapError.Source → ⊥ }
    {
        match self.expected {
            Expected::Status => Err(MapError::Fault { line }),
            _ => Ok(()),
        }
    }
}

/// Reads a map to its end or to its first line at fault, and makes the mask of the sectors that were rescued whole: a word
/// of 32 sectors for each segment. What the buffer held is overwritten, and after an error the mask holds nothing of use.
pub fn read_map<S: Source>(
    source: &mut S,
    buffer: &mut [u8],
    mask: &mut [u32],
) -> Result<(), MapError>
    requires { 0 < length buffer.old }
    ensures reads { Reads S.means source.old source.new mask.new result }
    ensures stood { result ≢ Err MapError.Source →
        S.means.faults source.new ≡ S.means.faults source.old }
    ensures cause { result ≡ Err MapError.Source →
        Rose (S.means.faults source.old) (S.means.faults source.new) }
    ensures later { S.means.faults source.old ≤ S.means.faults source.new }
    ensures kept { S.means.keeps source.old source.new }
{
    clear(mask);
    let mut ahead = Ahead { at: 0, end: 0 };
    let mut progress = Progress {
        expected: Expected::Status,
        from: 0,
    };
    for line in 0..MOST_LINES {
        match read_line(source, buffer, &mut ahead) {
            Ok(LineRead::End) => return progress.finish(line + 1),
            Ok(LineRead::Endless) => return Err(MapError::Fault { line: line + 1 }),
            Ok(LineRead::Line { words, ended }) => {
                if !progress.take(words, mask) {
                    return Err(MapError::Fault { line: line + 1 });
                }
                if !ended {
                    return progress.finish(line + 2);
                }
            }
            Err(SourceFailed) => return Err(MapError::Source),
        }
    }
    match next_byte(source, buffer, &mut ahead) {
        Ok(None) => progress.finish(MOST_LINES + 1),
        Ok(Some(_)) => Err(MapError::Fault {
            line: MOST_LINES + 1,
        }),
        Err(SourceFailed) => Err(MapError::Source),
    }
}
