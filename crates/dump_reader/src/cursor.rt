//! The way through the pieces of a dump.

ghost use Rattle.std.specs.Prelude.{◌≡◌, ◌≤◌, ◌<◌, length};
ghost use Rattle.dump_spec.specs.Dump.{Dump};
ghost use Rattle.dump_spec.specs.Pieces.{Layout, has_piece};
ghost use Rattle.dump_reader.specs.Laid.{IsLaidOut, IsPlaced, HasSegment, is_there};

use crate::known::KnownDump;
use crate::piece::is_marked;
use qic_base::SECTOR;

/// A segment of a dump, and the first sector of its piece, counted from the dump's front: as many sectors as the pieces in
/// front of it have.
#[derive(Clone, Copy)]
pub struct Cursor {
    pub segment: u32,
    pub start: u32,
}

impl Cursor {
    /// At segment 0.
    pub fn new() -> Cursor
        ensures placed { (laid : KnownDump) → IsPlaced laid result }
        ensures segment { result.segment ≡ 0 }
    {
        Cursor {
            segment: 0,
            start: 0,
        }
    }

    /// Goes to a segment; back to one in front of it by the front of the dump.
    pub fn go_to(&mut self, known: &KnownDump, segment: u16)
        requires there { HasSegment known.now segment }
        requires placed { IsPlaced known.now self.old }
        ensures placed { IsPlaced known.now self.new }
        ensures segment { self.new.segment ≡ segment }
    {
        let segment = u32::from(segment);
        *self = self.not_behind(segment);
        self.go_on(known, segment);
    }

    /// The cursor, or where it is behind a segment, one at the front.
    fn not_behind(&self, segment: u32) -> Cursor
        ensures placed { (laid : KnownDump) → IsPlaced laid self.now → IsPlaced laid result }
        ensures segment { result.segment ≤ segment }
    {
        if segment < self.segment {
            Cursor::new()
        } else {
            *self
        }
    }

    /// Goes on to a segment that is not in front.
    fn go_on(&mut self, known: &KnownDump, segment: u32)
        requires there { segment ≤ length known.now.masks.now }
        requires within { segment ≤ 65536 }
        requires behind { self.old.segment ≤ segment }
        requires placed { IsPlaced known.now self.old }
        ensures placed { IsPlaced known.now self.new }
        ensures segment { self.new.segment ≡ segment }
    {
        let mut start = self.start;
        for passed in self.segment..segment {
            start += u32::from(known.step(passed));
        }
        *self = Cursor { segment, start };
    }

    /// Whether the segment has a piece: it begins in front of the dump's end.
    pub fn has_piece(&self, known: &KnownDump) -> bool
        requires there { HasSegment known.now self.now.segment }
        requires placed { IsPlaced known.now self.now }
        ensures { (dump : Dump) (layout : Layout) → IsLaidOut known.now layout →
            length dump.bytes ≡ known.now.bytes → result ≡ has_piece dump layout self.now.segment }
    {
        self.is_there(known)
    }

    /// Whether it has one, as it is known.
    fn is_there(&self, known: &KnownDump) -> bool
        ensures { result ≡ is_there known.now self.now }
    {
        let begins = SECTOR as u64 * u64::from(self.start) < known.bytes;
        u32::from(known.first) <= self.segment
            && self.segment <= u32::from(u16::MAX)
            && !is_marked(known.missing, self.segment)
            && begins
    }
}
