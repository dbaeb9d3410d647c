//! Slots of volume tables, and the sets of sectors that their reading leaves out, of `volume_table`.

ghost use Rattle.std.specs.Prelude.{◌<◌, ◌≤◌, IfOk};
ghost use Rattle.cartridge_spec.specs.Table.{Shows};

use qic_base::{LostSet, Name, Sector, write_u16, write_u32};
use std::alloc::Global;
use std::test::Fail;
use volume_table::{Entry, Table, TableFault, TableFull, TableReading, Trials, last_used, trials};

/// A data area of the table's segment.
type Area = [Sector; 29];

/// `VTBL`, as a little-endian number.
const SIGNATURE: u32 = 0x4C42_5456;

fn set_slot(area: &mut Area, slot: u8, signature: u32, start: u16, end: u16)
    requires { slot < 232 }
{
    let place = 128 * (slot as usize % 8);
    let sector = &mut area[slot as usize / 8];
    write_u32(sector, place, signature);
    write_u16(sector, place + 4, start);
    write_u16(sector, place + 6, end);
}

/// A data area whose slot `i` below `volumes` names segment `3 + i` alone.
fn area_of(volumes: u8) -> Area
    requires { volumes ≤ 232 }
{
    let mut area = [[0; 1024]; 29];
    for slot in 0..volumes {
        let segment = 3 + u16::from(slot);
        set_slot(&mut area, slot, SIGNATURE, segment, segment);
    }
    area
}

/// Slot 0 after the first append to a cartridge: ten bytes, named `a`, of 1994-03-01T12:00:00.
fn first_slot() -> [u8; 128] {
    let mut bytes = [0; 128];
    bytes[..9].copy_from_slice(b"\x56\x54\x42\x4C\x03\x00\x03\x00\x61");
    bytes[9..52].copy_from_slice(&[b' '; 43]);
    bytes[52..58].copy_from_slice(b"\xC0\x65\x52\x30\x01\x01");
    bytes[96..104].copy_from_slice(b"\x0A\x00\x00\x00\x00\x00\x00\x00");
    bytes
}

/// What that slot tells.
fn first_entry() -> Entry {
    let mut name = [b' '; 44];
    name[0] = b'a';
    Entry {
        start: 3,
        end: 3,
        name: Name::from_bytes(&name),
        date: 0x3052_65C0,
        flags: 1,
        sequence: 1,
        directory: 0,
        size: 10,
    }
}

/// The table that an area shows, of a cartridge whose last segment is `last`.
fn decoded(alloc: Global, area: &Area, last: u32) -> Result<Table, Fail>
    ensures { IfOk result (λ table. Shows area.now table) }
{
    let mut table = Table::new(alloc)?;
    table.decode(area, last)?;
    Ok(table)
}

/// How many volumes a table lists, and the first of them.
fn first_of(table: &Table) -> (u8, Option<Entry>) {
    let count = table.len();
    if count == 0 {
        return (0, None);
    }
    (count, Some(*table.entry(0)))
}

/// Whether a table is empty, what it answers to the reading of an area, and what it lists then.
fn reads(table: &mut Table, area: &Area) -> (bool, Result<(), TableFault>, (u8, Option<Entry>)) {
    let empty = table.is_empty();
    let answer = table.decode(area, 83);
    (empty, answer, first_of(table))
}

#[test]
fn a_slot_of_the_table_is_read(rt: HostRuntime) -> Result<(), Fail> {
    let mut area = [[0; 1024]; 29];
    area[0][..128].copy_from_slice(&first_slot());
    let mut table = Table::new(rt.alloc())?;
    let seen = reads(&mut table, &area);
    assert_eq!(rt; seen, (true, Ok(()), (1, Some(first_entry()))));
    Ok(())
}

/// Puts the entry into the table that an area shows. The answer, and the number of volumes then.
fn put_first(alloc: Global, area: &mut Area) -> Result<(Result<u8, TableFull>, u8), Fail> {
    let mut table = decoded(alloc, area, 83)?;
    Ok((table.put(&first_entry(), area), table.len()))
}

#[test]
fn an_entry_is_put_and_read_again(rt: HostRuntime) -> Result<(), Fail> {
    let mut area = [[0; 1024]; 29];
    area[0][4..128].copy_from_slice(&[0xAA; 124]);
    let put = put_first(rt.alloc(), &mut area)?;
    let mut table = Table::new(rt.alloc())?;
    let again = reads(&mut table, &area);
    let mut want = [0; 1024];
    want[..128].copy_from_slice(&first_slot());
    assert_eq!(rt;
        (put, again, area[0]),
        ((Ok(0), 1), (true, Ok(()), (1, Some(first_entry()))), want)
    );
    Ok(())
}

/// Puts an entry into the table that an area shows. Whether it shows the table before and after that, and the answer.
fn put_last(
    table: &mut Table,
    area: &mut Area,
    entry: &Entry,
) -> (bool, Result<u8, TableFull>, bool)
    requires { Shows area.old table.old }
{
    let before = table.is_shown_by(area);
    let answer = table.put(entry, area);
    (before, answer, table.is_shown_by(area))
}

/// Reads the table again, and puts the entry once more. The answer, and the number of volumes then.
fn put_again(
    table: &mut Table,
    area: &mut Area,
    entry: &Entry,
) -> Result<(Result<u8, TableFull>, u8), TableFault> {
    table.decode(area, 4199)?;
    let answer = table.put(entry, area);
    Ok((answer, table.len()))
}

#[test]
fn the_last_slot_fills_the_table(rt: HostRuntime) -> Result<(), Fail> {
    let mut area = area_of(231);
    let mut entry = first_entry();
    entry.start = 234;
    entry.end = 234;
    let mut slot = first_slot();
    slot[4..8].copy_from_slice(b"\xEA\x00\xEA\x00");
    let mut table = decoded(rt.alloc(), &area, 4199)?;
    let put = put_last(&mut table, &mut area, &entry);
    let again = put_again(&mut table, &mut area, &entry);
    assert_eq!(rt;
        (put, again, &area[28][896..]),
        (
            (true, Ok(28), true),
            Ok((Err(TableFull), 232)),
            slot.as_slice(),
        )
    );
    Ok(())
}

/// Whether a list is shown by the data of 100 volumes with one slot changed.
fn is_shown_with(table: &Table, slot: u8, signature: u32, start: u16, end: u16) -> bool
    requires { slot < 232 }
{
    let mut area = area_of(100);
    set_slot(&mut area, slot, signature, start, end);
    table.is_shown_by(&area)
}

#[test]
fn a_list_is_not_shown_by_the_data_of_another(rt: HostRuntime) -> Result<(), Fail> {
    let table = decoded(rt.alloc(), &area_of(100), 4199)?;
    let shown = [
        is_shown_with(&table, 99, 0, 102, 102),
        is_shown_with(&table, 100, SIGNATURE, 103, 103),
        is_shown_with(&table, 231, 1, 0, 0),
        is_shown_with(&table, 50, SIGNATURE, 53, 54),
    ];
    assert_eq!(rt; shown, [false; 4]);
    Ok(())
}

/// The first volume of a table, counted from 0, that does not lie in the segment 3 further on alone.
fn first_elsewhere(table: &Table) -> Option<u8> {
    for index in 0..table.len() {
        let entry = table.entry(index);
        let segment = 3 + u16::from(index);
        if entry.start != segment || entry.end != segment {
            return Some(index);
        }
    }
    None
}

#[test]
fn a_full_table_is_read(rt: HostRuntime) -> Result<(), Fail> {
    let table = decoded(rt.alloc(), &area_of(232), 4199)?;
    assert_eq!(rt; (table.len(), first_elsewhere(&table)), (232, None));
    Ok(())
}

fn foreign(slot: u8) -> Result<(), TableFault> {
    Err(TableFault::ForeignSlot { slot })
}

fn bad(slot: u8) -> Result<(), TableFault> {
    Err(TableFault::BadRange { slot })
}

/// Reads the data of so many volumes with one slot changed, of a cartridge whose last segment is 500: the answer, and
/// whether the table is then empty.
fn decode_with(
    table: &mut Table,
    volumes: u8,
    slot: u8,
    signature: u32,
    start: u16,
    end: u16,
) -> (Result<(), TableFault>, bool)
    requires volumes { volumes ≤ 232 }
    requires slot { slot < 232 }
{
    let mut area = area_of(volumes);
    set_slot(&mut area, slot, signature, start, end);
    (table.decode(&area, 500), table.is_empty())
}

/// What `decode_with` is given behind the table, and the answer to the reading.
type Row = (u8, u8, u32, u16, u16, Result<(), TableFault>);

/// The number of the first row that is answered otherwise, or behind which the table is empty but where it was refused.
fn first_other(table: &mut Table, rows: &[Row]) -> Option<usize> {
    for at in 0..rows.len() {
        let (volumes, slot, signature, start, end, want) = rows[at];
        if volumes > 232 || slot >= 232 {
            return Some(at);
        }
        let seen = decode_with(table, volumes, slot, signature, start, end);
        if seen != (want, want.is_err()) {
            return Some(at);
        }
    }
    None
}

#[test]
fn the_first_fault_is_named(rt: HostRuntime) -> Result<(), Fail> {
    let used = SIGNATURE;
    let rows = [
        (1, 0, 0x4D42_5456, 3, 3, foreign(0)),
        (1, 0, used, 2, 3, bad(0)),
        (1, 0, used, 4, 3, bad(0)),
        (1, 0, used, 3, 501, bad(0)),
        (1, 0, used, 3, 500, Ok(())),
        (200, 116, 1, 119, 119, foreign(116)),
        (100, 116, used, 119, 119, foreign(116)),
        (200, 116, used, 118, 118, bad(116)),
        (200, 116, used, 119, 120, bad(117)),
        (200, 116, 0, 119, 119, foreign(117)),
        (117, 116, used, 119, 119, Ok(())),
        (232, 231, 0x4C42_5400, 234, 234, foreign(231)),
        (232, 231, used, 233, 234, bad(231)),
        (232, 231, used, 234, 501, bad(231)),
        (232, 231, 0, 234, 234, Ok(())),
    ];
    let mut table = Table::new(rt.alloc())?;
    assert_eq!(rt; first_other(&mut table, &rows), None);
    Ok(())
}

#[test]
fn unreadable_sectors_decide_the_reading(rt: HostRuntime) {
    let masks = [
        0,
        0xE000_0000,
        0x1000_0000,
        0x8000_0021,
        0xE000_0001,
        u32::MAX,
    ];
    let readings = masks.map(|mask| Table::reading(LostSet::from_mask(mask)));
    assert_eq!(rt;
        readings,
        [
            TableReading::AsRead,
            TableReading::AsRead,
            TableReading::Solve,
            TableReading::Solve,
            TableReading::TooMany { lost: 4 },
            TableReading::TooMany { lost: 32 },
        ]
    );
}

/// The sets that a reading tries where these places are lost; None where it does not solve.
fn tried(mask: u32, used: Option<u8>) -> Option<Trials> {
    let lost = LostSet::from_mask(mask);
    if Table::reading(lost) != TableReading::Solve {
        return None;
    }
    Some(trials(lost, used))
}

#[test]
fn the_sets_are_those_of_the_lost_places(rt: HostRuntime) {
    for (mask, used, count, sets) in [
        // Sector 5 alone.
        (
            0x20,
            Some(7),
            5,
            [0x20, 0x8000_0020, 0x2000_0020, 0xA0, 0xC000_0020],
        ),
        (
            0x20,
            None,
            4,
            [0x20, 0x8000_0020, 0x2000_0020, 0xC000_0020, 0],
        ),
        // Sectors 1 and 29, 1 and 30, 1 and 31, 1 and 2.
        (0x2000_0002, Some(0), 2, [0x2000_0002, 0x2000_0003, 0, 0, 0]),
        (0x4000_0002, Some(0), 2, [0x4000_0002, 0xC000_0002, 0, 0, 0]),
        (0x8000_0002, Some(0), 1, [0x8000_0002, 0, 0, 0, 0]),
        (6, Some(0), 1, [6, 0, 0, 0, 0]),
    ] {
        let want = Trials {
            count,
            sets: sets.map(LostSet::from_mask),
        };
        assert_eq!(rt; tried(mask, used), Some(want), "at {mask}");
    }
}

fn last_without(area: &Area, lost: u32) -> Option<u8> {
    last_used(area, LostSet::from_mask(lost))
}

#[test]
fn the_last_sector_with_a_used_slot_is_found(rt: HostRuntime) {
    let mut area = [[0; 1024]; 29];
    let empty = last_without(&area, 0);
    write_u32(&mut area[0], 0, SIGNATURE);
    write_u32(&mut area[4], 896, SIGNATURE);
    write_u32(&mut area[6], 4, SIGNATURE);
    let seen = [
        empty,
        last_without(&area, 0),
        last_without(&area, 1 << 4),
        last_without(&area, 0x11),
        last_without(&area, 1 << 6),
    ];
    assert_eq!(rt; seen, [None, Some(4), Some(0), None, Some(4)]);
}
