//! Disks in memory: what a call that fails leaves, and what a record has.

ghost use Rattle.std.specs.Prelude.{◌≡◌, IfOk, OnOk};
ghost use Rattle.qic_mem.specs.Disk.{disk_means};

use qic_base::{Disk, DiskFailed, NoMemory};
use qic_mem::{DiskChange, DiskEntry, MemDisk};
use std::alloc::Global;
use std::test::Fail;

/// Makes a disk the four bytes `abcd`, by two calls.
fn fill(disk: &mut MemDisk) -> Result<(), DiskFailed>
    ensures { OnOk result (disk_means.seen_len disk.new ≡ 4) }
{
    disk.set_len(4)?;
    disk.write_at(0, b"abcd")
}

/// A disk of the four bytes `abcd` with room for eight. Its third call fails.
fn about_to_fail(alloc: Global) -> Result<MemDisk, Fail>
    ensures { IfOk result (λ disk. disk_means.seen_len disk ≡ 4) }
{
    let mut disk = MemDisk::new(alloc, 8, [2].to_vec(alloc)?)?;
    fill(&mut disk)?;
    Ok(disk)
}

type Shown = (Result<usize, DiskFailed>, [u8; 6]);

/// How many bytes of a disk a read of six gives, and those, with points behind them.
fn shown(disk: &mut MemDisk) -> Shown {
    let mut into = *b"......";
    (disk.read_at(0, &mut into), into)
}

/// What a disk of the bytes `abcd` shows.
const FOUR: Shown = (Ok(4), *b"abcd..");

#[test]
fn a_failing_write_leaves_half_of_it(rt: HostRuntime) -> Result<(), Fail> {
    let mut disk = about_to_fail(rt.alloc())?;
    let seen = (disk.write_at(1, b"xyz"), shown(&mut disk));
    assert_eq!(rt; seen, (Err(DiskFailed), (Ok(4), *b"axcd..")));
    Ok(())
}

#[test]
fn a_failing_length_is_the_old_one(rt: HostRuntime) -> Result<(), Fail> {
    let mut disk = about_to_fail(rt.alloc())?;
    let seen = (
        disk.set_len(2),
        shown(&mut disk),
        disk.set_len(9),
        disk.len(),
    );
    assert_eq!(rt; seen, (Err(DiskFailed), FOUR, Err(DiskFailed), Ok(4)));
    Ok(())
}

/// A call that leaves the bytes as they are.
#[derive(Clone, Copy)]
enum Call {
    Sync,
    Len,
    ReadAt,
}

fn fails(disk: &mut MemDisk, call: Call) -> bool {
    match call {
        Call::Sync => disk.sync().is_err(),
        Call::Len => disk.len().is_err(),
        Call::ReadAt => disk.read_at(0, &mut [0; 4]).is_err(),
    }
}

/// Whether the third call of a disk fails, and what the disk shows then.
fn left_by(alloc: Global, call: Call) -> Result<(bool, Shown), Fail> {
    let mut disk = about_to_fail(alloc)?;
    Ok((fails(&mut disk, call), shown(&mut disk)))
}

#[test]
fn the_other_failing_calls_leave_all(rt: HostRuntime) -> Result<(), Fail> {
    let left = [
        left_by(rt.alloc(), Call::Sync)?,
        left_by(rt.alloc(), Call::Len)?,
        left_by(rt.alloc(), Call::ReadAt)?,
    ];
    assert_eq!(rt; left, [(true, FOUR); 3]);
    Ok(())
}

/// A disk with room for eight bytes, and for so many calls and written bytes in its record.
fn recorded(alloc: Global, calls: u32, bytes: u64) -> Result<MemDisk, NoMemory> {
    MemDisk::recorded(alloc, 8, calls, bytes, Vec::new(alloc))
}

#[test]
fn a_disk_that_shrinks_and_grows_shows_zeros(rt: HostRuntime) -> Result<(), Fail> {
    let mut disk = recorded(rt.alloc(), 5, 4)?;
    let seen = (
        fill(&mut disk),
        disk.set_len(2),
        disk.set_len(5),
        shown(&mut disk),
        disk.sync(),
        disk.sync(),
    );
    assert_eq!(rt;
        seen,
        (
            Ok(()),
            Ok(()),
            Ok(()),
            (Ok(5), *b"ab\0\0\0."),
            Ok(()),
            Err(DiskFailed),
        )
    );
    Ok(())
}

#[test]
fn a_record_without_room_for_its_bytes_refuses(rt: HostRuntime) -> Result<(), Fail> {
    let mut disk = recorded(rt.alloc(), 4, 3)?;
    let seen = (fill(&mut disk), shown(&mut disk));
    assert_eq!(rt; seen, (Err(DiskFailed), (Ok(4), *b"\0\0\0\0..")));
    Ok(())
}

/// Makes a call of each kind on a disk, of which 2 and 3 have to fail.
fn use_disk(disk: &mut MemDisk) -> Result<(), DiskFailed> {
    fill(disk)?;
    if disk.len().is_ok() || disk.write_at(1, b"xy").is_ok() {
        return Err(DiskFailed);
    }
    disk.sync()
}

/// A disk whose record has an entry of each kind. Its calls 2 and 3 fail.
fn with_history(alloc: Global) -> Result<MemDisk, Fail> {
    let mut disk = MemDisk::recorded(alloc, 8, 4, 6, [2, 3].to_vec(alloc)?)?;
    use_disk(&mut disk)?;
    Ok(disk)
}

/// Whether a disk without a record has no history.
fn has_none(alloc: Global) -> Result<bool, Fail> {
    let disk = about_to_fail(alloc)?;
    let (shown, bytes) = disk.history();
    Ok(shown.len() + bytes.len() == 0)
}

#[test]
fn a_record_has_its_entries_and_their_bytes(rt: HostRuntime) -> Result<(), Fail> {
    let none = has_none(rt.alloc())?;
    let disk = with_history(rt.alloc())?;
    let (shown, bytes) = disk.history();
    let entries = [
        DiskEntry::Made(DiskChange::SetLen(4)),
        DiskEntry::Made(DiskChange::WriteAt(0, 4)),
        DiskEntry::Settled,
        DiskEntry::Broke(DiskChange::WriteAt(1, 2)),
        DiskEntry::Made(DiskChange::Sync),
    ];
    let seen = (shown, bytes, none);
    assert_eq!(rt; seen, (entries.as_slice(), b"abcdxy".as_slice(), true));
    Ok(())
}
