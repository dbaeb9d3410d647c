//! The list of volumes that a volume table shows.

ghost use Rattle.std.specs.Prelude.{◌≡◌, ◌<◌, ◌≤◌, ◌↔◌, ◌++◌, ◌∷◌, [], length, slice_get, IsTrue, IsOk, IsErr, IfOk, OnOk, OnErr, IfErr};
ghost use Rattle.cartridge_spec.specs.Table.{slot_bytes, Shows, HasNoFault, IsFirstFault};
ghost use Rattle.cartridge_laws.specs.Slots.{slot_sector, with_slot};

use crate::entry::Entry;
use crate::fault::{TableFault, TableFull};
use crate::showing::are_shown_by;
use crate::slots::{SLOTS, read_slots};
use crate::writing::write_slot;
use qic_base::{NoMemory, Sector, push_within};
use std::alloc::Global;
use std::marker::Model;

/// The volumes on a cartridge, at most 232, in the order of their slots. Contracts see the list
/// of their entries.
#[derive(Drop)]
pub struct Table {
    entries: Vec<Entry>,
}

impl Model for Table {
    ghost use Rattle.std.specs.Prelude.{List, ◌≤◌, map};
    ghost use Rattle.std.specs.Vec.{vec_len, vec_capacity};
    ghost use Rattle.cartridge_spec.specs.Table.{Entry as Volume};
    ghost use Rattle.volume_table.specs.Entry.{entry_of};

    ghost Value = { List Volume };

    ghost view = { λ table. map entry_of table.entries.items };

    ghost invariant = { λ table. (232 ≤ vec_capacity table.entries)
        × (vec_len table.entries ≤ 232) };
}

impl Table {
    ghost use Rattle.volume_table.specs.Entry.{entry_of};
    ghost use Rattle.volume_table.specs.Fault.{fault_of};

    /// An empty table with room for all 232 entries: no later call takes memory.
    pub fn new(alloc: Global) -> Result<Table, NoMemory>
        ensures { IfOk result (λ table. table ≡ []) }
    {
        let entries = Vec::with_capacity(alloc, SLOTS as usize)?;
        Ok(Table { entries })
    }

    /// Reads the table's data area, 29 sectors, of a cartridge whose last segment is `last`. A
    /// refusal names the first slot that is at fault, and leaves the table empty.
    pub fn decode(&mut self, area: &[Sector], last: u32) -> Result<(), TableFault>
        requires { length area.now ≡ 29 }
        ensures shown { OnOk result (Shows area.now self.new) }
        ensures sound { OnOk result (HasNoFault area.now last) }
        ensures succeeds { HasNoFault area.now last → IsOk result }
        ensures fault { IfErr result (λ fault. IsFirstFault area.now last (fault_of fault)) }
        ensures emptied { OnErr result (self.new ≡ []) }
    {
        self.entries.clear();
        let outcome = read_slots(&mut self.entries, area, last);
        if outcome.is_err() {
            self.entries.clear();
        }
        outcome
    }

    /// Writes the entry into the next slot of the table's data area, 29 sectors that show the list,
    /// and adds it to the list. Answers the index of the sector that has the slot, 0 to 28, or
    /// `TableFull` where all 232 slots are used. The segments of the entry are not tested.
    pub fn put(&mut self, entry: &Entry, area: &mut [Sector]) -> Result<u8, TableFull>
        requires sectors { length area.old ≡ 29 }
        requires list { Shows area.old self.old }
        ensures full { IsErr result ↔ (length self.old ≡ 232) }
        ensures sector { IfOk result (λ sector. sector ≡ slot_sector (length self.old)) }
        ensures written { OnOk result (area.new
            ≡ with_slot area.old (length self.old) (slot_bytes (entry_of entry.now))) }
        ensures added { OnOk result (self.new ≡ self.old ++ entry_of entry.now ∷ []) }
        ensures shown { OnOk result (Shows area.new self.new) }
        ensures data_kept { OnErr result (area.new ≡ area.old) }
        ensures list_kept { OnErr result (self.new ≡ self.old) }
    {
        let index = self.len();
        if index == SLOTS {
            return Err(TableFull);
        }
        write_slot(area, index, entry);
        push_within(&mut self.entries, *entry);
        Ok(index / 8)
    }

    /// Whether the table's data area, 29 sectors, shows just this list.
    pub fn is_shown_by(&self, area: &[Sector]) -> bool
        requires sectors { length area.now ≡ 29 }
        ensures { IsTrue result ↔ Shows area.now self.now }
    {
        are_shown_by(&self.entries, area)
    }

    /// The number of volumes, 0 to 232.
    pub fn len(&self) -> u8
        ensures count { result ≡ length self.now }
        ensures few { result ≤ 232 }
    {
        self.entries.len() as u8
    }

    /// Whether there is no volume.
    pub fn is_empty(&self) -> bool
        ensures { IsTrue result ↔ (self.now ≡ []) }
    {
        self.entries.is_empty()
    }

    /// The entry of a volume, counted from 0.
    pub fn entry(&self, index: u8) -> &Entry
        requires { index < length self.now }
        ensures { slice_get self.now index ≡ Some (entry_of result.now) }
    {
        &self.entries[index as usize]
    }
}
