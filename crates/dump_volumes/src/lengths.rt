//! The segments of a volume, and its length.

ghost use Rattle.std.specs.Prelude.{◌≡◌, ◌<◌, ◌≤◌, ◌^◌, ℕ, length};
ghost use Rattle.cartridge_spec.specs.Shape.{capacity};
ghost use Rattle.dump_spec.specs.Volumes.{has_bad_range, carried_between, length_of};
ghost use Rattle.dump_volumes.specs.Masks.{HoldMasks};
ghost use Rattle.dump_volumes.specs.Volume.{volume_of};

use crate::volume::Volume;
use qic_base::SECTOR;
use segment_salvage::data_sectors;

/// The greatest number of a segment.
const LAST_SEGMENT: u64 = 65_535;

/// Whether a volume's last segment is below its first or above 65,535, or its first is not behind the table's.
pub fn has_bad_range(table: u16, volume: &Volume) -> bool
    ensures { result ≡ has_bad_range table (volume_of volume.now) }
{
    volume.end < volume.start || volume.end > LAST_SEGMENT || volume.start <= u64::from(table)
}

/// The bytes of data that a segment carries.
fn capacity(mask: u32) -> u64
    ensures bytes { result ≡ capacity mask }
    ensures small { result ≤ 29696 }
{
    SECTOR as u64 * u64::from(data_sectors(mask))
}

/// The bytes that the segments from one to another carry, by the masks of all 65,536 segments.
pub fn carried_between(masks: &[u32], first: u16, last: u16) -> u64
    requires { length masks.now ≡ 65536 }
    ensures bytes { (of : ℕ → ℕ) → HoldMasks masks.now of → result ≡ carried_between of first last }
    ensures small { result < 2 ^ 31 }
{
    let mut bytes = 0;
    for segment in u32::from(first)..u32::from(last) + 1 {
        bytes += capacity(masks[segment as usize]);
    }
    bytes
}

/// The length of a volume in bytes, by the masks of all 65,536 segments, for a table in this segment; 0 where its range is
/// bad.
pub fn length_of(masks: &[u32], table: u16, volume: &Volume) -> u64
    requires { length masks.now ≡ 65536 }
    ensures bytes { (of : ℕ → ℕ) → HoldMasks masks.now of → result ≡ length_of of table (volume_of volume.now) }
    ensures small { result < 2 ^ 31 }
{
    if has_bad_range(table, volume) {
        return 0;
    }
    let carried = carried_between(masks, volume.start as u16, volume.end as u16);
    if volume.entry.directory == 0 && !volume.compressed && volume.entry.size <= carried {
        volume.entry.size
    } else {
        carried
    }
}
