//! Whether a volume table's data show a given list.

ghost use Rattle.std.specs.Prelude.{◌≡◌, ◌<◌, ◌≤◌, ◌↔◌, map, length, slice_get, IsTrue, Some, None};
ghost use Rattle.cartridge_spec.specs.Table.{Shows};
ghost use Rattle.volume_table.specs.Entry.{entry_of};
ghost use Rattle.volume_table.specs.Reading.{IsSlotOf};

use crate::entry::Entry;
use crate::slots::{SIGNATURE, SLOTS, entry_at, slot_at};
use qic_base::{Sector, read_u32};

fn has_entry(area: &[Sector], index: u8, entry: &Entry) -> bool
    requires sectors { length area.now ≡ 29 }
    requires within { index < 232 }
    ensures { IsTrue result ↔ IsSlotOf area.now index (Some (entry_of entry.now)) }
{
    let bytes = slot_at(area, index);
    read_u32(bytes, 0) == SIGNATURE && entry_at(bytes) == *entry
}

fn has_no_entry(area: &[Sector], index: u8) -> bool
    requires sectors { length area.now ≡ 29 }
    requires within { index < 232 }
    ensures { IsTrue result ↔ IsSlotOf area.now index None }
{
    read_u32(slot_at(area, index), 0) == 0
}

fn is_slot_of(entries: &[Entry], area: &[Sector], index: u8) -> bool
    requires sectors { length area.now ≡ 29 }
    requires within { index < 232 }
    ensures { IsTrue result ↔ IsSlotOf area.now index (slice_get (map entry_of entries.now) index) }
{
    match entries.get(index as usize) {
        Some(entry) => has_entry(area, index, entry),
        None => has_no_entry(area, index),
    }
}

/// Whether the table's data show just these entries.
pub fn are_shown_by(entries: &[Entry], area: &[Sector]) -> bool
    requires sectors { length area.now ≡ 29 }
    requires few { length entries.now ≤ 232 }
    ensures { IsTrue result ↔ Shows area.now (map entry_of entries.now) }
{
    for index in 0..SLOTS {
        if !is_slot_of(entries, area, index) {
            return false;
        }
    }
    true
}
