//! What is left of an image over which a new cartridge is put in, where that breaks off.

ghost use Rattle.qic_base.specs.Disk.{IsSettled};
ghost use Rattle.qic_mem.specs.Disk.{disk_means};

use crate::files::{LONGER, NEVER, file, tape_in};
use cart_image::ImageTape;
use qic_base::{Disk, Tape, TapeFailed, TapeInfo};
use qic_mem::MemDisk;
use std::alloc::Global;
use std::test::Fail;

/// What a file tells of its cartridge.
fn info_of(file: MemDisk) -> Result<Option<TapeInfo>, TapeFailed>
    requires { IsSettled disk_means file }
{
    tape_in(file).info()
}

/// A cartridge of so many segments per track, with the write protect mark or not, and not referenced.
fn cartridge(segments_per_track: u16, protected: bool) -> Option<TapeInfo> {
    Some(TapeInfo {
        segments_per_track,
        protected,
        referenced: false,
    })
}

/// The head of an image of four segments per track that has the write protect mark.
const FOUR: &[u8; 14] = b"QIC80IMG\x01\0\x04\0\x5A\0";

/// A tape in an image of four segments per track. The disk fails at this call, counted behind the three that made the
/// file.
fn four(alloc: Global, call: u16) -> Result<ImageTape<MemDisk>, Fail> {
    let fails = [3 + u64::from(call)].to_vec(alloc)?;
    Ok(tape_in(file(alloc, LONGER, FOUR, fails)?))
}

/// What the file tells after a new cartridge of three segments per track was put in over that, which has to fail.
fn info_after_broken(alloc: Global, call: u16) -> Result<Option<TapeInfo>, Fail> {
    let mut tape = four(alloc, call)?;
    match tape.renew(3) {
        Err(TapeFailed) => Ok(info_of(tape.into_disk())?),
        Ok(()) => Err(Fail::from("a new cartridge")),
    }
}

/// The same after it was put in.
fn info_after_new(alloc: Global) -> Result<Option<TapeInfo>, Fail> {
    let mut tape = four(alloc, NEVER)?;
    tape.renew(3)?;
    Ok(info_of(tape.into_disk())?)
}

/// Whether the new cartridge is put in, and the next call of the disk is the one that fails.
fn is_put_in_before(alloc: Global, call: u16) -> Result<bool, Fail> {
    let mut tape = four(alloc, call)?;
    Ok(tape.renew(3).is_ok() && tape.into_disk().len().is_err())
}

#[test]
fn a_new_cartridge_that_breaks_off_leaves_the_old_none_or_the_new(
    rt: HostRuntime,
) -> Result<(), Fail> {
    let old = cartridge(4, true);
    let new = cartridge(3, false);
    // Two calls look at the first byte. Then come a write or a length, and its sync: byte 0 is cleared, the length is
    // 64, the length is the new one, bytes 1 to 63 are written, and byte 0 is. A write of one byte that fails leaves
    // the old.
    let left = [
        old, old, old, None, None, None, None, None, None, None, None, new,
    ];
    for (call, info) in (0..).zip(left) {
        assert_eq!(rt; info_after_broken(rt.alloc(), call)?, info, "call {call}");
    }
    let put_in = (
        is_put_in_before(rt.alloc(), 12)?,
        info_after_new(rt.alloc())?,
    );
    assert_eq!(rt; put_in, (true, new));
    Ok(())
}
