//! One segment of a volume.

ghost use Rattle.std.specs.Prelude.{◌<◌, ◌≤◌, length};
ghost use Rattle.qic_base.specs.Alone.{reading};
ghost use Rattle.cartridge_spec.specs.Shape.{mask_at};
ghost use Rattle.host_driver.specs.Calls.{Keeps};
ghost use Rattle.segment_io.specs.Calls.{CanWrite};
ghost use Rattle.volume_input.specs.Length.{is_exact};
ghost use Rattle.volume_input.specs.Next.{NextEnds};

use crate::filling::fill_work;
use crate::length::Wanted;
use bad_sector_map::BadMap;
use drive_states::Unit;
use host_driver::Host;
use qic_base::{Source, StoreFault, Tape, are_sectors};
use segment_io::{Workspace, write_segment};

/// Writes a carrying segment with the next bytes of the source, as many as it carries, and no more than are wanted with
/// the `before` ones that stand in the segments in front of it. The answer is their number; None where none came behind
/// some others, and the segment is left.
pub fn write_next<T: Tape, S: Source>(
    host: &mut Host,
    unit: &mut Unit<T>,
    map: &BadMap,
    segment: u32,
    before: u32,
    wanted: Wanted,
    work: &mut Workspace,
    source: &mut S,
) -> Result<Option<u32>, StoreFault>
    requires can { CanWrite T.means host.old unit.old segment (mask_at map.now segment) }
    requires map { segment < length map.now }
    requires within { before ≤ wanted.most }
    ensures ends { NextEnds T.means S.means map.now segment before
        wanted.most (is_exact wanted.length)
        (reading unit.old.tape source.old) (reading unit.new.tape source.new) result }
    ensures kept { S.means.keeps source.old source.new }
    ensures keeps { Keeps T.means host.new unit.old unit.new }
{
    let capacity = map.capacity(segment);
    let left = wanted.most - before;
    let read = fill_work(source, work, (capacity / 1024) as u8, left)?;
    are_sectors(work.sectors());
    if wanted.length.is_exact() && read < capacity.min(left) {
        return Err(StoreFault::Short {
            promised: wanted.most,
            read: before + read,
        });
    }
    if read == 0 && before > 0 {
        return Ok(None);
    }
    write_segment(host, unit, segment, map.usable(segment), work)?;
    Ok(Some(read))
}
