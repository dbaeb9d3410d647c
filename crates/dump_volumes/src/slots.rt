//! The slots of volumes among those of a table.

ghost use Rattle.std.specs.Prelude.{◌≡◌, ◌<◌, ◌≤◌, ◌*◌, [], MatchOption, drop, length};
ghost use Rattle.cartridge_spec.specs.Table.{is_used};
ghost use Rattle.dump_spec.specs.Volumes.{is_passed, slots, volume_slots};
ghost use Rattle.dump_volumes.specs.Left.{IsNextSlot};

use qic_base::{Sector, read_u32};
use volume_table::{SIGNATURE, slot_at};

/// `XTBL`, `UTID` and `EXVT` as little-endian numbers: slots that tell no volume and don't end the table (Linux zftape
/// headers).
const PASSED: [u32; 3] = [0x4C42_5458, 0x4449_5455, 0x5456_5845];

fn is_used(bytes: &[u8]) -> bool
    requires { length bytes.now ≡ 128 }
    ensures { result ≡ is_used bytes.now }
{
    read_u32(bytes, 0) == SIGNATURE
}

fn is_passed(bytes: &[u8]) -> bool
    requires { length bytes.now ≡ 128 }
    ensures { result ≡ is_passed bytes.now }
{
    let letters = read_u32(bytes, 0);
    letters == PASSED[0] || letters == PASSED[1] || letters == PASSED[2]
}

/// The first slot of a volume from one on, in a table of at most 29 sectors; none behind the table's end.
pub fn next_slot(area: &[Sector], from: u8) -> Option<u8>
    requires { length area.now ≤ 29 }
    ensures { MatchOption result (volume_slots (drop from (slots area.now)) ≡ []) (IsNextSlot area.now from) }
{
    let count = 8 * area.len() as u8;
    for at in from..count {
        let bytes = slot_at(area, at);
        if is_used(bytes) {
            return Some(at);
        }
        if !is_passed(bytes) {
            return None;
        }
    }
    None
}
