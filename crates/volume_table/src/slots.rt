//! The slots of a volume table's data, one by one.

ghost use Rattle.std.specs.Prelude.{◌≡◌, ◌<◌, ◌≤◌, ◌*◌, ◌||◌, [], map, length, false, nat_le, nat_lt, IfOk, MatchResult, OnOk, IfErr};
ghost use Rattle.std.specs.Vec.{vec_len, vec_capacity};
ghost use Rattle.cartridge_spec.specs.Table.{slot, slot_fault, some_free_below, entry_in, Shows, HasNoFault, IsFirstFault};
ghost use Rattle.volume_table.specs.Entry.{entry_of};
ghost use Rattle.volume_table.specs.Fault.{fault_of};
ghost use Rattle.volume_table.specs.Reading.{ShowsSlot};
ghost use Rattle.cartridge_laws.specs.TableReading.{IsTakenBefore};

use crate::entry::Entry;
use crate::fault::TableFault;
use qic_base::{Name, Sector, push_within, read_u16, read_u32, read_u64};

/// The number of slots: eight in each of the 29 data sectors (Linux ftape headers).
pub const SLOTS: u8 = 232;

/// The segment of the table itself, behind which the volumes lie (this project's profile).
pub const TABLE_SEGMENT: u32 = 2;

/// `VTBL`, the signature of a used slot, as a little-endian number.
pub const SIGNATURE: u32 = 0x4C42_5456;

/// The 128 bytes of a slot; each sector has eight.
pub fn slot_at(area: &[Sector], index: u8) -> &[u8]
    requires { index < 8 * length area.now }
    ensures bytes { result.now ≡ slot area.now index }
    ensures size { length result.now ≡ 128 }
{
    let place = 128 * (index as usize % 8);
    &area[index as usize / 8][place..place + 128]
}

/// What a used slot of 128 bytes tells.
pub fn entry_at(bytes: &[u8]) -> Entry
    requires { length bytes.now ≡ 128 }
    ensures { entry_of result ≡ entry_in bytes.now }
{
    let mut name = [0; 44];
    name.copy_from_slice(&bytes[8..52]);
    Entry {
        start: read_u16(bytes, 4),
        end: read_u16(bytes, 6),
        name: Name::from_bytes(&name),
        date: read_u32(bytes, 52),
        flags: bytes[56],
        sequence: bytes[57],
        directory: read_u32(bytes, 92),
        size: read_u64(bytes, 96),
    }
}

/// Whether a volume does not lie forwards between the segments taken so far and the last one.
fn is_bad_range(entry: &Entry, taken: u16, last: u32) -> bool
    ensures { result ≡ (nat_le entry.now.start taken
        || nat_lt entry.now.end entry.now.start || nat_lt last entry.now.end) }
{
    entry.start <= taken || entry.end < entry.start || u32::from(entry.end) > last
}

/// Reads one slot: a volume, or `None` where it is free. `taken` is the last segment that is taken
/// by the slots before, and `seen_free` says whether one of them is free.
fn read_slot(
    area: &[Sector],
    last: u32,
    index: u8,
    taken: u16,
    seen_free: bool,
) -> Result<Option<Entry>, TableFault>
    requires sectors { length area.now ≡ 29 }
    requires within { index < 232 }
    requires free { seen_free ≡ some_free_below area.now index }
    requires taken { seen_free ≡ false → IsTakenBefore area.now index taken }
    ensures fault { MatchResult result (λ _. slot_fault area.now last index ≡ None)
        (λ fault. slot_fault area.now last index ≡ Some (fault_of fault)) }
    ensures shown { IfOk result (ShowsSlot area.now index) }
{
    let bytes = slot_at(area, index);
    let signature = read_u32(bytes, 0);
    if signature == 0 {
        return Ok(None);
    }
    if signature != SIGNATURE || seen_free {
        return Err(TableFault::ForeignSlot { slot: index });
    }
    let entry = entry_at(bytes);
    if is_bad_range(&entry, taken, last) {
        return Err(TableFault::BadRange { slot: index });
    }
    Ok(Some(entry))
}

/// Adds the table's volumes to an empty list, up to the first slot that is at fault.
pub fn read_slots(entries: &mut Vec<Entry>, area: &[Sector], last: u32) -> Result<(), TableFault>
    requires sectors { length area.now ≡ 29 }
    requires empty { entries.old.items ≡ [] }
    requires room { 232 ≤ vec_capacity entries.old }
    ensures shown { OnOk result (Shows area.now (map entry_of entries.new.items)) }
    ensures sound { OnOk result (HasNoFault area.now last) }
    ensures fault { IfErr result (λ fault. IsFirstFault area.now last (fault_of fault)) }
    ensures room { 232 ≤ vec_capacity entries.new }
    ensures few { vec_len entries.new ≤ 232 }
{
    let mut taken = TABLE_SEGMENT as u16;
    let mut seen_free = false;
    for index in 0..SLOTS {
        match read_slot(area, last, index, taken, seen_free)? {
            Some(entry) => {
                taken = entry.end;
                push_within(entries, entry);
            }
            None => seen_free = true,
        }
    }
    Ok(())
}
