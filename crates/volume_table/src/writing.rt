//! An entry as the bytes of a slot.

ghost use Rattle.std.specs.Prelude.{◌≡◌, ◌<◌, length};
ghost use Rattle.cartridge_spec.specs.Table.{slot_bytes};
ghost use Rattle.cartridge_laws.specs.Slots.{FitsSlot, with_slot};
ghost use Rattle.volume_table.specs.Entry.{entry_of};

use crate::entry::Entry;
use crate::slots::SIGNATURE;
use qic_base::{Sector, write_u16, write_u32, write_u64};

fn write_entry(bytes: &mut [u8], entry: &Entry)
    requires { length bytes.old ≡ 128 }
    ensures spelled { bytes.new ≡ slot_bytes (entry_of entry.now) }
    ensures fits { FitsSlot (entry_of entry.now) }
{
    let start = entry.start;
    let end = entry.end;
    let date = entry.date;
    let directory = entry.directory;
    let size = entry.size;
    bytes.fill(0);
    write_u32(bytes, 0, SIGNATURE);
    write_u16(bytes, 4, start);
    write_u16(bytes, 6, end);
    bytes[8..52].copy_from_slice(entry.name.bytes());
    write_u32(bytes, 52, date);
    bytes[56] = entry.flags;
    bytes[57] = entry.sequence;
    write_u32(bytes, 92, directory);
    write_u64(bytes, 96, size);
}

/// Writes the entry into a slot. The vendor's extension, the password and the unassigned bytes
/// become zero.
pub fn write_slot(area: &mut [Sector], index: u8, entry: &Entry)
    requires sectors { length area.old ≡ 29 }
    requires within { index < 232 }
    ensures written { area.new ≡ with_slot area.old index (slot_bytes (entry_of entry.now)) }
    ensures fits { FitsSlot (entry_of entry.now) }
{
    let place = 128 * (index as usize % 8);
    let sector = &mut area[index as usize / 8];
    write_entry(&mut sector[place..place + 128], entry);
}
