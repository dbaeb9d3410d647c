//! A new image, and one of version 1 that is brought to version 2: where their bytes stand, and what is left of the
//! second where that breaks off.

ghost use Rattle.std.specs.Prelude.{◌≡◌, IfOk, Some};
ghost use Rattle.cart_image.specs.ImageTape.{image_means};

use crate::files::{LENGTH, NEVER, OLD, byte_at, sees_three, tape_in, write_image};
use crate::sectors::three_filled;
use cart_image::ImageTape;
use qic_base::{Disk, DiskFailed, Tape, TapeFailed};
use qic_mem::MemDisk;
use std::alloc::Global;
use std::test::Fail;

/// The length of an image of three segments per track that was upgraded.
const UPGRADED: u64 = 5_521_216;

/// The tape in a version 1 image whose sectors 64 to 66 hold bytes, on a disk with room for both versions. The disk
/// fails at this call, counted behind the nine that made the file and told of it.
fn old(alloc: Global, call: u16) -> Result<ImageTape<MemDisk>, Fail>
    ensures { IfOk result (λ tape. image_means.size tape ≡ Some 3) }
{
    let fails = [9 + u64::from(call)].to_vec(alloc)?;
    let mut file = MemDisk::new(alloc, UPGRADED, fails)?;
    write_image(&mut file)?;
    let mut tape = tape_in(file);
    sees_three(&mut tape)?;
    Ok(tape)
}

/// What the sectors 64 to 66 hold after an upgrade that has to fail at this call.
fn filled_after(alloc: Global, call: u16) -> Result<[Option<u8>; 3], Fail> {
    let mut tape = old(alloc, call)?;
    match tape.upgrade() {
        Err(TapeFailed) => three_filled(&mut tape_in(tape.into_disk())),
        Ok(_) => Err(Fail::from("an upgrade")),
    }
}

/// The length and its sync are the first two calls. Four look at segment 0, and the next writes its first sector. The
/// last sector is written 3,019 calls later, behind 83 more segments of 36 calls each. Then come a sync, the base and
/// the layout mark, each of these with its sync.
#[test]
fn an_upgrade_that_breaks_off_leaves_each_sector(rt: HostRuntime) -> Result<(), Fail> {
    for call in [
        0, 1, 2, 3, 4, 5, 6, 3_025, 3_026, 3_027, 3_028, 3_029, 3_030,
    ] {
        assert_eq!(rt;
            filled_after(rt.alloc(), call)?,
            [Some(OLD); 3],
            "call {call}"
        );
    }
    Ok(())
}

/// The versions that two upgrades found, one after the other, and what the sectors hold behind them. The disk's next
/// call fails.
fn upgraded_twice(alloc: Global) -> Result<(u8, u8, bool), Fail> {
    let mut tape = old(alloc, 3_031)?;
    let first = tape.upgrade()?;
    let second = tape.upgrade()?;
    Ok((first, second, tape.info().is_err()))
}

/// What the sectors hold behind an upgrade.
fn filled_behind(alloc: Global) -> Result<[Option<u8>; 3], Fail> {
    let mut tape = old(alloc, NEVER)?;
    let _ = tape.upgrade()?;
    three_filled(&mut tape_in(tape.into_disk()))
}

#[test]
fn an_upgrade_tells_the_version_before_and_is_made_once(rt: HostRuntime) -> Result<(), Fail> {
    let seen = (upgraded_twice(rt.alloc())?, filled_behind(rt.alloc())?);
    assert_eq!(rt; seen, ((1, 2, true), [Some(OLD); 3]));
    Ok(())
}

/// The file of a new cartridge of three segments per track, in which sector 0 of segment 4 was made a defect or not.
fn new(alloc: Global, spoils: bool) -> Result<MemDisk, Fail> {
    let mut tape = tape_in(MemDisk::new(alloc, LENGTH, Vec::new(alloc))?);
    tape.renew(3)?;
    if spoils {
        let _ = tape.spoil(4, 0)?;
    }
    Ok(tape.into_disk())
}

/// The bytes of a file from a place on.
fn bytes_at(file: &mut MemDisk, place: u64) -> Result<[u8; 64], DiskFailed> {
    let mut bytes = [0; 64];
    let _ = file.read_at(place, &mut bytes)?;
    Ok(bytes)
}

/// Whether all bytes of a file behind its head are zero.
fn is_zero_behind(file: &mut MemDisk) -> Result<bool, DiskFailed> {
    for i in 1..43_135 {
        if bytes_at(file, 64 * i)? != [0; 64] {
            return Ok(false);
        }
    }
    Ok(true)
}

#[test]
fn a_new_image_has_version_2(rt: HostRuntime) -> Result<(), Fail> {
    let mut head = [0; 64];
    head[..17].copy_from_slice(b"QIC80IMG\x02\0\x03\0\0\0\x5A\0\x40");
    let mut file = new(rt.alloc(), false)?;
    let seen = (
        file.len()?,
        bytes_at(&mut file, 0)?,
        is_zero_behind(&mut file)?,
    );
    assert_eq!(rt; seen, (LENGTH, head, true));
    assert_eq!(rt; byte_at(&mut new(rt.alloc(), true)?, 131_522)?, 0xBD);
    Ok(())
}
