//! Sectors of the volume table's segment written, and the entry of a new volume.

ghost use Rattle.std.specs.Prelude.{◌≡◌, ◌<◌, ◌^◌, ◌++◌, ◌∷◌, [], true, length, take};
ghost use Rattle.qic_base.specs.TapeCalls.{Does};
ghost use Rattle.cartridge_spec.specs.Appending.{table_writes};
ghost use Rattle.cartridge_spec.specs.Says.{with_parity};
ghost use Rattle.cartridge_laws.specs.Slots.{slot_sector, with_slot};
ghost use Rattle.cartridge_laws.specs.Segment.{sectors_of};
ghost use Rattle.cartridge_spec.specs.Table.{slot_bytes, Shows};
ghost use Rattle.drive_spec.specs.Terms.{is_referenced};
ghost use Rattle.host_driver.specs.Calls.{IsReady, MayWrite, Keeps};
ghost use Rattle.cartridge_spec.specs.Settling.{block_writes};
ghost use Rattle.volume_table.specs.Entry.{entry_of};

use drive_states::Unit;
use gf256_qic::DATA_SECTORS;
use host_driver::Host;
use qic_base::{LostSet, Sector, Tape, TapeFailed, WHOLE};
use segment_io::{Workspace, write_sectors};
use segment_parity::put_parity;
use volume_table::{Entry, TABLE_SEGMENT, Table, TableFull};

/// The mask of the places of a whole segment's parity.
const PARITY_MASK: u32 = 0xE000_0000;

/// Puts the entry into the next slot of the data, the first 29 of a segment's sectors. The answer is the sector that
/// has the slot.
fn put_slot(entry: &Entry, sectors: &mut [Sector], table: &mut Table) -> u8
    requires room { length sectors.old ≡ 32 }
    requires listed { Shows (take 29 sectors.old) table.old }
    requires free { length table.old < 232 }
    ensures data { take 29 sectors.new
        ≡ with_slot (take 29 sectors.old) (length table.old) (slot_bytes (entry_of entry.now)) }
    ensures room { length sectors.new ≡ 32 }
    ensures sector { result ≡ slot_sector (length table.old) }
    ensures list { table.new ≡ table.old ++ entry_of entry.now ∷ [] }
    ensures shown { Shows
        (with_slot (take 29 sectors.old) (length table.old) (slot_bytes (entry_of entry.now)))
        table.new }
{
    match table.put(entry, &mut sectors[..DATA_SECTORS]) {
        Ok(sector) => sector,
        Err(TableFull) => unreachable!("a slot is free"),
    }
}

/// Puts the entry into the next slot of the data in the workspace, and their parity behind them. The answer is the
/// sector that has the slot.
fn put_entry(entry: &Entry, work: &mut Workspace, table: &mut Table) -> u8
    requires room { length work.old ≡ 32 }
    requires listed { Shows (take 29 work.old) table.old }
    requires free { length table.old < 232 }
    ensures block { work.new ≡ with_parity
        (with_slot (take 29 work.old) (length table.old) (slot_bytes (entry_of entry.now))) }
    ensures sector { result ≡ slot_sector (length table.old) }
    ensures list { table.new ≡ table.old ++ entry_of entry.now ∷ [] }
    ensures shown { Shows
        (with_slot (take 29 work.old) (length table.old) (slot_bytes (entry_of entry.now)))
        table.new }
{
    let sectors = work.sectors_mut();
    let changed = put_slot(entry, sectors, table);
    put_parity(sectors, DATA_SECTORS);
    changed
}

/// Writes the sectors of the table's segment at these places, ascending. Where there are none the tape stays where it
/// is.
pub(crate) fn write_places<T: Tape>(
    host: &mut Host,
    unit: &mut Unit<T>,
    places: LostSet,
    work: &Workspace,
) -> Result<(), TapeFailed>
    requires ready { IsReady T.means host.old unit.old }
    requires referenced { is_referenced unit.old.drive.deck ≡ true }
    requires writable { MayWrite unit.old.drive.deck }
    requires within { places < 2 ^ 32 }
    ensures did { Does T.means unit.old.tape unit.new.tape
        (block_writes work.now (sectors_of places)) result }
    ensures keeps { Keeps T.means host.new unit.old unit.new }
{
    if places.mask() == 0 {
        return Ok(());
    }
    write_sectors(host, unit, TABLE_SEGMENT, WHOLE, places, work)
}

/// Adds an entry to the list, and writes it into the table's segment, whose data stand in the workspace: first the
/// sector of data that has its slot, and then the sectors of parity.
pub(crate) fn write_entry<T: Tape>(
    host: &mut Host,
    unit: &mut Unit<T>,
    entry: &Entry,
    work: &mut Workspace,
    table: &mut Table,
) -> Result<(), TapeFailed>
    requires ready { IsReady T.means host.old unit.old }
    requires referenced { is_referenced unit.old.drive.deck ≡ true }
    requires writable { MayWrite unit.old.drive.deck }
    requires room { length work.old ≡ 32 }
    requires listed { Shows (take 29 work.old) table.old }
    requires free { length table.old < 232 }
    ensures did { Does T.means unit.old.tape unit.new.tape (table_writes
        (slot_sector (length table.old))
        (with_slot (take 29 work.old) (length table.old) (slot_bytes (entry_of entry.now))))
        result }
    ensures list { table.new ≡ table.old ++ entry_of entry.now ∷ [] }
    ensures shown { Shows
        (with_slot (take 29 work.old) (length table.old) (slot_bytes (entry_of entry.now)))
        table.new }
    ensures keeps { Keeps T.means host.new unit.old unit.new }
{
    let changed = put_entry(entry, work, table);
    write_places(host, unit, LostSet::from_mask(1 << changed), work)?;
    write_places(host, unit, LostSet::from_mask(PARITY_MASK), work)
}
