//! What each call of a tape writes to the disk under an image of version 2. The cell of the sector with the number q
//! begins at 64 + 1,027 * q: its gate, its formed byte, its defect byte, and from 3 on its bytes. Sector 0 of segment 2
//! has the number 64, so its gate is byte 64 + 65,728 = 65,792, and sector 1 has its gate at 66,819 and its bytes from
//! 66,822 on. The sectors 0 to 2 hold bytes, and the others of the segment were never formatted.

ghost use Rattle.std.specs.Prelude.{◌<◌, ◌^◌};

use crate::calls::{Call, Row, Version, does, first_other};
use crate::files::{CLOSED, LENGTH, NEW, OPEN, sees_three, tape_in, write_cells};
use qic_base::{Disk, LostSet, Tape};
use qic_mem::MemDisk;
use std::alloc::Global;
use std::test::Fail;

/// Where the cell of a sector of segment 2 begins.
fn cell(sector: u8) -> u64
    ensures { result < 2 ^ 32 }
{
    65_792 + 1_027 * u64::from(sector)
}

fn gate(sector: u8, value: u8) -> Row {
    Row::Fill(cell(sector), 1, value)
}

fn formed(sector: u8) -> Row {
    Row::Fill(cell(sector) + 1, 1, 0xF0)
}

fn zeros(sector: u8) -> Row {
    Row::Fill(cell(sector) + 3, 1024, 0)
}

/// One sector: each of its parts is a write, with its sync.
#[test]
fn a_sector_in_a_cell_is_written_in_three_steps_or_two_or_none(
    rt: HostRuntime,
) -> Result<(), Fail> {
    let close = Row::Fill(66_819, 1, CLOSED);
    let bytes = Row::Fill(66_822, 1024, NEW);
    let open = Row::Fill(66_819, 1, OPEN);
    let three = [close, Row::Sync, bytes, Row::Sync, open, Row::Sync];
    let two = [bytes, Row::Sync, open, Row::Sync];
    let table: [(&[Call], &[Row]); 4] = [
        (&[Call::Write(1)], &three),
        (&[Call::Wear(1), Call::Write(1)], &two),
        (&[Call::Write(3)], &[]),
        (&[Call::Spoil(3), Call::Write(3)], &[]),
    ];
    assert_eq!(rt; first_other(rt.alloc(), Version::Two, &table)?, None);
    Ok(())
}

/// The rows of a formatting: the gates of these sectors are closed, all sectors but a defect get zeros, those from one
/// on are formed, and all their gates are opened. Each sector is a write, and each of the four steps has one sync.
fn formatting(alloc: Global, closed: &[u8], defect: u8, from: u8) -> Result<Vec<Row>, Fail> {
    let mut rows = Vec::new(alloc);
    for sector in closed {
        rows.push(gate(*sector, CLOSED))?;
    }
    rows.push(Row::Sync)?;
    for sector in 0..32 {
        if sector != defect {
            rows.push(zeros(sector))?;
        }
    }
    rows.push(Row::Sync)?;
    for sector in from..32 {
        if sector != defect {
            rows.push(formed(sector))?;
        }
    }
    if from < 32 {
        rows.push(Row::Sync)?;
    }
    for sector in 0..32 {
        if sector != defect {
            rows.push(gate(sector, OPEN))?;
        }
    }
    rows.push(Row::Sync)?;
    Ok(rows)
}

/// No sector.
const NONE: u8 = 32;

/// Whether a segment is formatted so: at first, with one of its sectors lost before, with a defect, and again.
fn formats(alloc: Global) -> Result<[bool; 4], Fail> {
    let first = formatting(alloc, &[0, 1, 2], NONE, 3)?;
    let worn = formatting(alloc, &[0, 2], NONE, 3)?;
    let spoiled = formatting(alloc, &[0, 1, 2], 3, 3)?;
    let all = [
        0, 1, 2, 3, 4, 5, 6, 7, 8, 9, 10, 11, 12, 13, 14, 15, 16, 17, 18, 19, 20, 21, 22, 23, 24,
        25, 26, 27, 28, 29, 30, 31,
    ];
    let again = formatting(alloc, &all, NONE, NONE)?;
    let two = Version::Two;
    Ok([
        does(alloc, two, &[Call::Format], &first)?,
        does(alloc, two, &[Call::Wear(1), Call::Format], &worn)?,
        does(alloc, two, &[Call::Spoil(3), Call::Format], &spoiled)?,
        does(alloc, two, &[Call::Format, Call::Format], &again)?,
    ])
}

#[test]
fn cells_are_formatted_in_four_steps_of_a_write_a_sector(rt: HostRuntime) -> Result<(), Fail> {
    assert_eq!(rt; formats(rt.alloc())?, [true; 4]);
    Ok(())
}

/// Sector 3 has the number 67: its defect byte is 64 + 1,027 * 67 + 2 = 68,875.
#[test]
fn a_state_byte_of_a_cell_or_a_mark_is_one_write_or_none(rt: HostRuntime) -> Result<(), Fail> {
    let table: [(&[Call], &[Row]); 14] = [
        (&[Call::Wear(1)], &[Row::Fill(66_819, 1, CLOSED), Row::Sync]),
        (&[Call::Wear(1), Call::Wear(1)], &[]),
        (&[Call::Wear(3)], &[]),
        (&[Call::Spoil(3)], &[Row::Fill(68_875, 1, 0xBD), Row::Sync]),
        (&[Call::Spoil(3), Call::Spoil(3)], &[]),
        (&[Call::Spoil(1)], &[]),
        (&[Call::Protect(true)], &[Row::Fill(12, 1, 0x5A), Row::Sync]),
        (&[Call::Protect(true), Call::Protect(true)], &[]),
        (
            &[Call::Protect(true), Call::Protect(false)],
            &[Row::Fill(12, 1, 0), Row::Sync],
        ),
        (&[Call::Protect(false)], &[]),
        (&[Call::Reference], &[Row::Fill(13, 1, 0x5A), Row::Sync]),
        (&[Call::Reference, Call::Reference], &[]),
        (&[Call::Info], &[]),
        (&[Call::Read(1)], &[]),
    ];
    assert_eq!(rt; first_other(rt.alloc(), Version::Two, &table)?, None);
    Ok(())
}

#[test]
fn a_new_cartridge_over_cells_is_five_steps(rt: HostRuntime) -> Result<(), Fail> {
    let rows = [
        Row::Fill(0, 1, 0),
        Row::Sync,
        Row::SetLen(64),
        Row::Sync,
        Row::SetLen(LENGTH),
        Row::Sync,
        Row::Write(1, 63),
        Row::Sync,
        Row::Fill(0, 1, 0x51),
        Row::Sync,
    ];
    assert!(rt; does(rt.alloc(), Version::Two, &[Call::Renew], &rows)?);
    Ok(())
}

/// Whether a segment is read, and the next call of the disk is the one that fails: nine calls made the file, and two told
/// of it.
fn is_read_by_one_call(alloc: Global) -> Result<bool, Fail> {
    let mut file = MemDisk::new(alloc, LENGTH, [12].to_vec(alloc)?)?;
    write_cells(&mut file)?;
    let mut tape = tape_in(file);
    sees_three(&mut tape)?;
    let read = tape.read_sectors(2, LostSet::from_mask(u32::MAX), &mut [[0; 1024]; 32])?;
    Ok(read.good == LostSet::from_mask(0b111) && tape.into_disk().len().is_err())
}

#[test]
fn the_sectors_of_a_segment_are_read_by_one_call(rt: HostRuntime) -> Result<(), Fail> {
    assert!(rt; is_read_by_one_call(rt.alloc())?);
    Ok(())
}
