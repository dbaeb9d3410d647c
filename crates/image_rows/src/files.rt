//! Files on disks in memory, written by hand, and what stands in them. Only the calls of a disk fail that a test
//! chooses, counted from 0 over all calls of that disk. Segment 2 of an image of three segments per track has the
//! sectors with the numbers 64 to 95.

ghost use Rattle.std.specs.Prelude.{◌≡◌, ◌+◌, ◌^◌, ◌<◌, ◌≤◌, IfOk, OnOk, Some, None, true};
ghost use Rattle.qic_base.specs.Disk.{IsSettled};
ghost use Rattle.qic_mem.specs.Disk.{disk_means};
ghost use Rattle.cart_image.specs.ImageTape.{disk_of, image_means};

use cart_image::ImageTape;
use qic_base::{Disk, DiskFailed, Tape};
use qic_mem::MemDisk;
use std::alloc::Global;
use std::test::Fail;

/// The length of an image of three segments per track: 64 + 1,027 * 2,688, for its 2,688 sectors.
pub const LENGTH: u64 = 2_760_640;

/// The same for four, of 3,584 sectors.
pub const LONGER: u64 = 3_680_832;

/// The head of an image of three segments per track with neither mark, as far as a head is read.
pub const HEAD: &[u8; 14] = b"QIC80IMG\x01\0\x03\0\0\0";

/// Each byte of the sectors 64 to 66 in an image that holds them.
pub const OLD: u8 = 0x11;

/// Each byte that a test writes over them.
pub const NEW: u8 = 0xEE;

pub const OPEN: u8 = 0x5A;

pub const CLOSED: u8 = 0xC1;

/// A call that no test comes to.
pub const NEVER: u16 = 60_000;

/// The tape in a file.
pub fn tape_in(file: MemDisk) -> ImageTape<MemDisk>
    requires { disk_means.tells_stops file ≡ true → IsSettled disk_means file }
    ensures disk { disk_of result ≡ file }
    ensures size { image_means.size result ≡ None }
{
    let faults = file.faults();
    ImageTape::open(file, faults)
}

/// A file of this length that begins so, as far as it goes, and is zero behind that. Three calls of the disk make it.
pub fn file(alloc: Global, length: u64, head: &[u8; 14], fails: Vec<u64>) -> Result<MemDisk, Fail>
    ensures settled { IfOk result (IsSettled disk_means) }
    ensures seen { IfOk result (λ file. disk_means.seen_len file ≡ length) }
{
    let mut file = MemDisk::new(alloc, LONGER, fails)?;
    begin(&mut file, length, head)?;
    Ok(file)
}

fn begin(file: &mut MemDisk, length: u64, head: &[u8; 14]) -> Result<(), DiskFailed>
    ensures settled { OnOk result (IsSettled disk_means file.new) }
    ensures seen { OnOk result (disk_means.seen_len file.new ≡ length) }
{
    file.set_len(length)?;
    file.write_at(0, &head[..length.min(14) as usize])?;
    file.sync()
}

/// Makes a file an image of three segments per track whose sectors 64 to 66 hold bytes: their gates, their formed bytes
/// at 64 + 2,688 + 64, and their bytes at 64 + 3 * 2,688 + 1,024 * 64. Seven calls of the disk make it.
pub fn write_image(file: &mut MemDisk) -> Result<(), DiskFailed>
    ensures { OnOk result (IsSettled disk_means file.new) }
{
    begin(file, LENGTH, HEAD)?;
    file.write_at(128, &[OPEN; 3])?;
    file.write_at(2_816, &[0xF0; 3])?;
    file.write_at(73_664, &[OLD; 3_072])?;
    file.sync()
}

/// A sector that holds bytes, its four parts side by side from this place on.
fn write_cell(file: &mut MemDisk, place: u64) -> Result<(), DiskFailed>
    requires small { place < 2 ^ 32 }
    requires within { place + 1027 ≤ disk_means.seen_len file.old }
    ensures { disk_means.seen_len file.new ≡ disk_means.seen_len file.old }
{
    file.write_at(place, &[OPEN, 0xF0, 0])?;
    file.write_at(place + 3, &[OLD; 1024])
}

/// Makes a file the image of that cartridge in version 2: the cell of a sector with the number q begins at 64 +
/// 1,027 * q, so those of the sectors 64 to 66 at 65,792, 66,819 and 67,846. Nine calls of the disk make it.
pub fn write_cells(file: &mut MemDisk) -> Result<(), DiskFailed>
    ensures { OnOk result (IsSettled disk_means file.new) }
{
    file.set_len(LENGTH)?;
    file.write_at(0, b"QIC80IMG\x02\0\x03\0\0\0\x5A\0\x40")?;
    write_cell(file, 65_792)?;
    write_cell(file, 66_819)?;
    write_cell(file, 67_846)?;
    file.sync()
}

/// Such an image of version 1.
pub fn image(alloc: Global, fails: Vec<u64>) -> Result<MemDisk, Fail>
    ensures { IfOk result (IsSettled disk_means) }
{
    let mut file = MemDisk::new(alloc, LONGER, fails)?;
    write_image(&mut file)?;
    Ok(file)
}

/// Sees that a tape has a cartridge of three segments per track. Two calls of the disk tell of it.
pub fn sees_three<D: Disk>(tape: &mut ImageTape<D>) -> Result<(), Fail>
    ensures { OnOk result (image_means.size tape.new ≡ Some 3) }
{
    match tape.info()? {
        Some(info) if info.segments_per_track == 3 => Ok(()),
        _ => Err(Fail::from("another cartridge")),
    }
}

/// The byte at a place; 0 behind the end.
pub fn byte_at(file: &mut MemDisk, place: u64) -> Result<u8, DiskFailed> {
    let mut byte = [0];
    let _ = file.read_at(place, &mut byte)?;
    Ok(byte[0])
}
