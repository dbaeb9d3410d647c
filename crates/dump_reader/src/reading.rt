//! The sectors of a segment.

ghost use Rattle.std.specs.Prelude.{◌≡◌, ◌≤◌, length, IfOk};
ghost use Rattle.dump_spec.specs.Dump.{Dump};
ghost use Rattle.dump_spec.specs.Pieces.{Layout};
ghost use Rattle.dump_reader.specs.Laid.{IsPlaced, HasSegment, Describes, AreCellsIn};
ghost use Rattle.qic_base.specs.Disk.{Look, Stores};

use crate::cursor::Cursor;
use crate::known::{KnownDump, piece_sectors};
use crate::piece::read_sectors;
use qic_base::{Disk, DiskFailed, LostSet, Sector, WHOLE};

/// Reads the sectors of a segment by one read of the disk, and answers those of the 32 that can't be read: the dump doesn't have
/// all their bytes, or they were not rescued. In the form of data the data sectors stand at the front. Where the segment has
/// no piece the disk is not read. The cursor is at the segment then.
pub fn read_piece<D: Disk>(
    disk: &mut D,
    known: &KnownDump,
    cursor: &mut Cursor,
    segment: u16,
    sectors: &mut [Sector],
) -> Result<LostSet, DiskFailed>
    requires room { length sectors.old ≡ 32 }
    requires there { HasSegment known.now segment }
    requires placed { IsPlaced known.now cursor.old }
    ensures did { Stores D.means disk.old disk.new Look result }
    ensures cells { IfOk result (λ unread. (dump : Dump) (layout : Layout) →
        Describes known.now (D.means.told disk.old) dump layout → AreCellsIn known.now segment unread sectors.new dump layout) }
    ensures placed { IsPlaced known.now cursor.new }
    ensures at { cursor.new.segment ≡ segment }
    ensures room { length sectors.new ≡ 32 }
{
    cursor.go_to(known, segment);
    if !cursor.has_piece(known) {
        return Ok(LostSet::from_mask(WHOLE));
    }
    let count = piece_sectors(known.form, known.masks[segment as usize]);
    read_sectors(disk, known.rescued, cursor.start, count, sectors)
}
