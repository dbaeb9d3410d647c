//! The pieces of a dump, counted.

ghost use Rattle.std.specs.Prelude.{◌≡◌, ◌≤◌, ◌+◌, ◌-◌, ◌*◌, length};
ghost use Rattle.cartridge_spec.specs.Shape.{usable_count};
ghost use Rattle.dump_answers.specs.Pieces.{CountsTo, HasPieces};
ghost use Rattle.dump_spec.specs.Dump.{Dump};
ghost use Rattle.dump_spec.specs.Pieces.{Layout};
ghost use Rattle.dump_reader.specs.Laid.{HasSegment, IsLaidOut, IsPlaced};

use dump_lists::SEGMENTS;
use dump_reader::{Cursor, KnownDump};
use qic_base::{LostSet, SECTORS};

/// How many pieces a dump has, and how many sectors the masks of their segments leave out.
#[derive(Clone, Copy, Drop)]
pub(crate) struct PieceCounts {
    pub pieces: u32,
    pub bad: u32,
}

/// How many sectors a mask leaves out.
fn bad_sectors(mask: u32) -> u32
    ensures bad { result ≡ 32 - usable_count mask }
    ensures few { result ≤ 32 }
{
    u32::from(SECTORS.saturating_sub(LostSet::from_mask(mask).count()))
}

/// Counts the segment that the cursor is at, where it has a piece.
fn count_piece(known: &KnownDump, cursor: &Cursor, counts: PieceCounts) -> PieceCounts
    requires there { HasSegment known.now cursor.now.segment }
    requires placed { IsPlaced known.now cursor.now }
    requires few { counts.pieces ≤ cursor.now.segment }
    requires small { counts.bad ≤ 32 * cursor.now.segment }
    ensures next { (dump : Dump) (layout : Layout) → IsLaidOut known.now layout → length dump.bytes ≡ known.now.bytes →
        CountsTo dump layout counts cursor.now.segment → CountsTo dump layout result (cursor.now.segment + 1) }
    ensures few { result.pieces ≤ cursor.now.segment + 1 }
    ensures small { result.bad ≤ 32 * (cursor.now.segment + 1) }
{
    if !cursor.has_piece(known) {
        return counts;
    }
    let bad = bad_sectors(known.masks[cursor.segment as usize]);
    PieceCounts {
        pieces: counts.pieces + 1,
        bad: counts.bad + bad,
    }
}

/// Counts the pieces of a dump, and the sectors that the masks of their segments leave out.
pub(crate) fn count_pieces(known: &KnownDump) -> PieceCounts
    requires masks { length known.now.masks.now ≡ 65536 }
    requires missing { length known.now.missing.now ≡ 2048 }
    ensures { (dump : Dump) (layout : Layout) → IsLaidOut known.now layout → length dump.bytes ≡ known.now.bytes →
        HasPieces dump layout result }
{
    let mut counts = PieceCounts { pieces: 0, bad: 0 };
    let mut cursor = Cursor::new();
    for segment in 0..SEGMENTS {
        cursor.go_to(known, segment as u16);
        counts = count_piece(known, &cursor, counts);
    }
    counts
}
