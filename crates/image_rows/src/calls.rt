//! What each call of a tape writes to the disk under an image of version 1. Sector 1 of segment 2 has the number 65: its gate is byte 64 +
//! 65 = 129, and its bytes begin at 64 + 3 * 2,688 + 1,024 * 65 = 74,688. The gates of segment 2 begin at 128, its
//! formed bytes at 64 + 2,688 + 64 = 2,816, and its sectors at 73,664.

ghost use Rattle.std.specs.Prelude.{IfOk};
ghost use Rattle.qic_base.specs.Disk.{IsSettled};
ghost use Rattle.qic_mem.specs.Disk.{disk_means};

use crate::files::{CLOSED, LENGTH, NEW, OLD, OPEN, sees_three, tape_in, write_cells, write_image};
use cart_image::ImageTape;
use qic_base::{LostSet, Tape, read_sector, write_sector};
use qic_mem::{DiskChange, DiskEntry, MemDisk};
use std::alloc::Global;
use std::test::Fail;

/// A call of a tape, of a sector of segment 2 or of that segment.
#[derive(Clone, Copy)]
pub enum Call {
    Info,
    Read(u8),
    Write(u8),
    WriteSectors(u32),
    Wear(u8),
    Spoil(u8),
    Format,
    Protect(bool),
    Reference,
    Renew,
}

/// Which version the image has that the calls are made on.
#[derive(Clone, Copy)]
pub enum Version {
    One,
    Two,
}

/// An entry of a disk's record: bytes that were written from a place on, so many of one value or of several; a length
/// that was set; a sync that was done; or any other.
#[derive(Clone, Copy, PartialEq, Eq)]
pub enum Row {
    Fill(u64, usize, u8),
    Write(u64, usize),
    SetLen(u64),
    Sync,
    Other,
}

/// 32 sectors, each of its number, counted from 1.
fn numbered() -> [[u8; 1024]; 32] {
    let mut sectors = [[0; 1024]; 32];
    for i in 0..32 {
        sectors[i as usize] = [i + 1; 1024];
    }
    sectors
}

/// Makes a call of a tape.
fn make(tape: &mut ImageTape<MemDisk>, call: Call) -> Result<(), Fail> {
    sees_three(tape)?;
    match call {
        Call::Info => {
            let _ = tape.info()?;
        }
        Call::Read(sector) if sector < 32 => {
            let _ = read_sector(tape, 2, sector, &mut [0; 1024])?;
        }
        Call::Write(sector) if sector < 32 => {
            let _ = write_sector(tape, 2, sector, &[NEW; 1024])?;
        }
        Call::WriteSectors(written) => {
            let _ = tape.write_sectors(2, LostSet::from_mask(written), &numbered())?;
        }
        Call::Wear(sector) if sector < 32 => tape.wear(2, sector)?,
        Call::Spoil(sector) if sector < 32 => {
            let _ = tape.spoil(2, sector)?;
        }
        Call::Format => tape.format_segment(2)?,
        Call::Protect(on) => tape.set_protected(on)?,
        Call::Reference => tape.set_referenced()?,
        Call::Renew => tape.renew(3)?,
        _ => return Err(Fail::from("no sector")),
    }
    Ok(())
}

/// Makes these calls, one after the other.
fn make_all(tape: &mut ImageTape<MemDisk>, calls: &[Call]) -> Result<(), Fail> {
    for call in calls {
        make(tape, *call)?;
    }
    Ok(())
}

/// An empty disk with room for one image, and for so many calls and bytes as no row comes to.
fn empty(alloc: Global) -> Result<MemDisk, Fail>
    ensures { IfOk result (IsSettled disk_means) }
{
    Ok(MemDisk::recorded(alloc, LENGTH, 299, 199_999, Vec::new(alloc))?)
}

/// The disk of an image whose sectors 64 to 66 hold bytes.
fn image_of(alloc: Global, version: Version) -> Result<MemDisk, Fail>
    ensures { IfOk result (IsSettled disk_means) }
{
    let mut disk = empty(alloc)?;
    match version {
        Version::One => write_image(&mut disk)?,
        Version::Two => write_cells(&mut disk)?,
    }
    Ok(disk)
}

/// The disk of such an image after these calls.
fn after(alloc: Global, version: Version, calls: &[Call]) -> Result<MemDisk, Fail>
    ensures { IfOk result (IsSettled disk_means) }
{
    let mut tape = tape_in(image_of(alloc, version)?);
    make_all(&mut tape, calls)?;
    Ok(tape.into_disk())
}

/// The row of a write.
fn written_row(place: u64, bytes: &[u8]) -> Row {
    match bytes.first() {
        Some(value) if bytes.iter().all(|b| *b == *value) => Row::Fill(place, bytes.len(), *value),
        _ => Row::Write(place, bytes.len()),
    }
}

/// Whether the record of a disk has these rows behind so many entries, and no other.
fn has_behind(disk: &MemDisk, count: usize, rows: &[Row]) -> bool {
    let (entries, bytes) = disk.history();
    let mut rest = bytes;
    let mut wanted = rows.iter();
    for (i, entry) in entries.iter().enumerate() {
        let row = match *entry {
            DiskEntry::Made(DiskChange::WriteAt(place, size)) if size <= rest.len() => {
                let row = written_row(place, &rest[..size]);
                rest = &rest[size..];
                row
            }
            DiskEntry::Made(DiskChange::SetLen(length)) => Row::SetLen(length),
            DiskEntry::Made(DiskChange::Sync) => Row::Sync,
            _ => Row::Other,
        };
        if i >= count && wanted.next() != Some(&row) {
            return false;
        }
    }
    wanted.next().is_none()
}

/// How many entries the record of an image's disk has after these calls.
fn entries_after(alloc: Global, version: Version, calls: &[Call]) -> Result<usize, Fail> {
    let disk = after(alloc, version, calls)?;
    let (entries, _) = disk.history();
    Ok(entries.len())
}

/// Whether the last of these calls does this to the disk of an image whose sectors 64 to 66 hold bytes, and nothing
/// else.
pub fn does(alloc: Global, version: Version, calls: &[Call], rows: &[Row]) -> Result<bool, Fail> {
    let before = entries_after(alloc, version, &calls[..calls.len().saturating_sub(1)])?;
    Ok(has_behind(&after(alloc, version, calls)?, before, rows))
}

/// Which of these runs of calls is the first whose last call does not do the rows beside it; None where there is none.
pub fn first_other(
    alloc: Global,
    version: Version,
    table: &[(&[Call], &[Row])],
) -> Result<Option<usize>, Fail> {
    for (i, (calls, rows)) in table.iter().enumerate() {
        if !does(alloc, version, calls, rows)? {
            return Ok(Some(i));
        }
    }
    Ok(None)
}

/// Whether a new cartridge does this to an empty disk, and nothing else.
fn first_does(alloc: Global, rows: &[Row]) -> Result<bool, Fail> {
    let mut tape = tape_in(empty(alloc)?);
    tape.renew(3)?;
    Ok(has_behind(&tape.into_disk(), 0, rows))
}

#[test]
fn a_sector_is_written_in_three_steps_or_two_or_none(rt: HostRuntime) -> Result<(), Fail> {
    let close = Row::Fill(129, 1, CLOSED);
    let bytes = Row::Fill(74_688, 1024, NEW);
    let open = Row::Fill(129, 1, OPEN);
    let three = [close, Row::Sync, bytes, Row::Sync, open, Row::Sync];
    let two = [bytes, Row::Sync, open, Row::Sync];
    let table: [(&[Call], &[Row]); 4] = [
        (&[Call::Write(1)], &three),
        (&[Call::Wear(1), Call::Write(1)], &two),
        (&[Call::Write(3)], &[]),
        (&[Call::Spoil(3), Call::Write(3)], &[]),
    ];
    assert_eq!(rt; first_other(rt.alloc(), Version::One, &table)?, None);
    Ok(())
}

/// Neighbours go as one write, and each step of all sectors has one sync. Sector 4 was never formatted.
#[test]
fn several_sectors_are_written_in_three_steps_or_two_or_none(rt: HostRuntime) -> Result<(), Fail> {
    let together = [
        Row::Fill(128, 3, CLOSED),
        Row::Sync,
        Row::Write(73_664, 3_072),
        Row::Sync,
        Row::Fill(128, 3, OPEN),
        Row::Sync,
    ];
    let apart = [
        Row::Fill(128, 1, CLOSED),
        Row::Fill(130, 1, CLOSED),
        Row::Sync,
        Row::Fill(73_664, 1_024, 1),
        Row::Fill(75_712, 1_024, 3),
        Row::Sync,
        Row::Fill(128, 1, OPEN),
        Row::Fill(130, 1, OPEN),
        Row::Sync,
    ];
    let lost = [
        Row::Fill(74_688, 1_024, 2),
        Row::Sync,
        Row::Fill(129, 1, OPEN),
        Row::Sync,
    ];
    let table: [(&[Call], &[Row]); 5] = [
        (&[Call::WriteSectors(0b1_0111)], &together),
        (&[Call::WriteSectors(0b101)], &apart),
        (&[Call::Wear(1), Call::WriteSectors(0b10)], &lost),
        (&[Call::WriteSectors(0b1_0000)], &[]),
        (&[Call::WriteSectors(0)], &[]),
    ];
    assert_eq!(rt; first_other(rt.alloc(), Version::One, &table)?, None);
    Ok(())
}

/// In version 2 the cell of sector i of segment 2 begins at 64 + 1,027 * (64 + i), with its gate, and its bytes 3 bytes
/// later. Sector 0 can be read, sector 1 is lost, and sector 3 is a defect.
#[test]
fn sectors_in_cells_are_written_one_by_one_with_three_syncs(rt: HostRuntime) -> Result<(), Fail> {
    let rows = [
        Row::Fill(65_792, 1, CLOSED),
        Row::Sync,
        Row::Fill(65_795, 1_024, 1),
        Row::Fill(66_822, 1_024, 2),
        Row::Sync,
        Row::Fill(65_792, 1, OPEN),
        Row::Fill(66_819, 1, OPEN),
        Row::Sync,
    ];
    let calls = [Call::Wear(1), Call::Spoil(3), Call::WriteSectors(0b1011)];
    assert!(rt; does(rt.alloc(), Version::Two, &calls, &rows)?);
    Ok(())
}

/// Which of the sectors 0, 3 and 4 of segment 2 take no write, where sector 3 is a defect and sector 4 was never
/// formatted.
fn refused(alloc: Global) -> Result<u32, Fail> {
    let mut tape = tape_in(after(alloc, Version::Two, &[Call::Spoil(3)])?);
    sees_three(&mut tape)?;
    let blank = tape.write_sectors(2, LostSet::from_mask(0b1_1001), &numbered())?;
    Ok(blank.mask())
}

#[test]
fn a_sector_that_was_never_formatted_is_answered(rt: HostRuntime) -> Result<(), Fail> {
    assert_eq!(rt; refused(rt.alloc())?, 0b1_0000);
    Ok(())
}

/// What a read of the sectors 0, 1 and 3 of segment 2 finds, where sector 1 is lost and sector 3 was never formatted:
/// the masks of both sets, and the first byte of each of the entries 0 to 3, which was 7.
fn found(alloc: Global, version: Version) -> Result<(u32, u32, [u8; 4]), Fail> {
    let mut tape = tape_in(after(alloc, version, &[Call::Wear(1)])?);
    sees_three(&mut tape)?;
    let mut into = [[7; 1024]; 32];
    let read = tape.read_sectors(2, LostSet::from_mask(0b1011), &mut into)?;
    let firsts = [into[0][0], into[1][0], into[2][0], into[3][0]];
    Ok((read.good.mask(), read.blank.mask(), firsts))
}

#[test]
fn several_sectors_are_read_and_other_entries_stay(rt: HostRuntime) -> Result<(), Fail> {
    let wanted = (0b1, 0b1000, [OLD, 7, 7, 7]);
    assert!(rt;
        found(rt.alloc(), Version::One)? == wanted && found(rt.alloc(), Version::Two)? == wanted
    );
    Ok(())
}

/// The 32 sectors of segment 2 with zero bytes, and their open gates.
const CLEAN: Row = Row::Fill(73_664, 32_768, 0);

const OPENED: Row = Row::Fill(128, 32, OPEN);

/// The 29 formed bytes of the sectors of segment 2 that were never formatted.
const FORM: Row = Row::Fill(2_819, 29, 0xF0);

#[test]
fn a_segment_is_formatted_in_four_steps_and_again_in_three(rt: HostRuntime) -> Result<(), Fail> {
    let first = [
        Row::Fill(128, 3, CLOSED),
        Row::Sync,
        CLEAN,
        Row::Sync,
        FORM,
        Row::Sync,
        OPENED,
        Row::Sync,
    ];
    // Each run of gates that are open goes as one write, and one sync stands behind them.
    let in_runs = [
        Row::Fill(128, 1, CLOSED),
        Row::Fill(130, 1, CLOSED),
        Row::Sync,
        CLEAN,
        Row::Sync,
        FORM,
        Row::Sync,
        OPENED,
        Row::Sync,
    ];
    let again = [
        Row::Fill(128, 32, CLOSED),
        Row::Sync,
        CLEAN,
        Row::Sync,
        OPENED,
        Row::Sync,
    ];
    let table: [(&[Call], &[Row]); 3] = [
        (&[Call::Format], &first),
        (&[Call::Wear(1), Call::Format], &in_runs),
        (&[Call::Format, Call::Format], &again),
    ];
    assert_eq!(rt; first_other(rt.alloc(), Version::One, &table)?, None);
    Ok(())
}

/// Sector 3 is a defect: the runs end before it and begin behind it.
#[test]
fn a_defect_is_left_out_of_formatting(rt: HostRuntime) -> Result<(), Fail> {
    let rows = [
        Row::Fill(128, 3, CLOSED),
        Row::Sync,
        Row::Fill(73_664, 3_072, 0),
        Row::Fill(77_760, 28_672, 0),
        Row::Sync,
        Row::Fill(2_820, 28, 0xF0),
        Row::Sync,
        Row::Fill(128, 3, OPEN),
        Row::Fill(132, 28, OPEN),
        Row::Sync,
    ];
    assert!(rt;
        does(
            rt.alloc(),
            Version::One,
            &[Call::Spoil(3), Call::Format],
            &rows
        )?
    );
    Ok(())
}

/// The defect byte of sector 3, which was never formatted, is 64 + 2 * 2,688 + 67 = 5,507.
#[test]
fn a_state_byte_or_a_mark_is_one_write_or_none(rt: HostRuntime) -> Result<(), Fail> {
    let table: [(&[Call], &[Row]); 14] = [
        (&[Call::Wear(1)], &[Row::Fill(129, 1, CLOSED), Row::Sync]),
        (&[Call::Wear(1), Call::Wear(1)], &[]),
        (&[Call::Wear(3)], &[]),
        (&[Call::Spoil(3)], &[Row::Fill(5_507, 1, 0xBD), Row::Sync]),
        (&[Call::Spoil(3), Call::Spoil(3)], &[]),
        (&[Call::Spoil(1)], &[]),
        (&[Call::Protect(true)], &[Row::Fill(12, 1, 0x5A), Row::Sync]),
        (&[Call::Protect(true), Call::Protect(true)], &[]),
        (
            &[Call::Protect(true), Call::Protect(false)],
            &[Row::Fill(12, 1, 0), Row::Sync],
        ),
        (&[Call::Protect(false)], &[]),
        (&[Call::Reference], &[Row::Fill(13, 1, 0x5A), Row::Sync]),
        (&[Call::Reference, Call::Reference], &[]),
        (&[Call::Info], &[]),
        (&[Call::Read(1)], &[]),
    ];
    assert_eq!(rt; first_other(rt.alloc(), Version::One, &table)?, None);
    Ok(())
}

#[test]
fn a_new_cartridge_is_five_steps_or_four(rt: HostRuntime) -> Result<(), Fail> {
    let rows = [
        Row::Fill(0, 1, 0),
        Row::Sync,
        Row::SetLen(64),
        Row::Sync,
        Row::SetLen(LENGTH),
        Row::Sync,
        Row::Write(1, 63),
        Row::Sync,
        Row::Fill(0, 1, 0x51),
        Row::Sync,
    ];
    assert!(rt;
        does(rt.alloc(), Version::One, &[Call::Renew], &rows)?
            && first_does(rt.alloc(), &rows[2..])?
    );
    Ok(())
}
