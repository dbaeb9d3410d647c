//! What a write of a sector leaves in an image, whichever of its calls of the disk fails. It is sector 1 of segment 2,
//! which has the number 65: its gate is byte 64 + 65 = 129, and its bytes begin at 64 + 3 * 2,688 + 1,024 * 65 =
//! 74,688.

ghost use Rattle.std.specs.Prelude.{◌≡◌, ◌<◌, IfOk, Some};
ghost use Rattle.qic_base.specs.Disk.{IsSettled};
ghost use Rattle.qic_mem.specs.Disk.{disk_means};
ghost use Rattle.cart_image.specs.ImageTape.{image_means};

use crate::files::{CLOSED, NEVER, NEW, OLD, OPEN, byte_at, image, sees_three, tape_in};
use cart_image::ImageTape;
use qic_base::{
    Disk, DiskFailed, SectorRead, SectorWrite, Tape, TapeFailed, read_sector, write_sector,
};
use qic_mem::MemDisk;
use std::alloc::Global;
use std::test::Fail;

/// The tape in an image whose sectors 64 to 66 hold bytes. The disk fails at this call, counted behind the nine that
/// made the file and told of it.
pub fn held(alloc: Global, call: u16) -> Result<ImageTape<MemDisk>, Fail>
    ensures { IfOk result (λ tape. image_means.size tape ≡ Some 3) }
{
    let fails = [9 + u64::from(call)].to_vec(alloc)?;
    let mut tape = tape_in(image(alloc, fails)?);
    sees_three(&mut tape)?;
    Ok(tape)
}

/// The same, with the sector lost. Five more calls looked at the segment's bytes in the planes and closed the gate.
fn worn(alloc: Global, call: u16) -> Result<ImageTape<MemDisk>, Fail>
    ensures { IfOk result (λ tape. image_means.size tape ≡ Some 3) }
{
    let mut tape = held(alloc, call.saturating_add(5))?;
    tape.wear(2, 1)?;
    Ok(tape)
}

/// The one or the other.
fn tape(alloc: Global, is_lost: bool, call: u16) -> Result<ImageTape<MemDisk>, Fail>
    ensures { IfOk result (λ tape. image_means.size tape ≡ Some 3) }
{
    if is_lost {
        worn(alloc, call)
    } else {
        held(alloc, call)
    }
}

/// The file after a write of the sector, which has to fail, or else to be taken.
pub fn after_write(mut tape: ImageTape<MemDisk>, fails: bool) -> Result<MemDisk, Fail>
    requires { image_means.size tape ≡ Some 3 }
    ensures { IfOk result (IsSettled disk_means) }
{
    match write_sector(&mut tape, 2, 1, &[NEW; 1024]) {
        Err(TapeFailed) if fails => Ok(tape.into_disk()),
        Ok(SectorWrite::Taken) if !fails => Ok(tape.into_disk()),
        _ => Err(Fail::from("another answer")),
    }
}

/// Whether the write is taken, and the next call of the disk is the one that fails.
fn is_taken_before(alloc: Global, is_lost: bool, call: u16) -> Result<bool, Fail> {
    let mut file = after_write(tape(alloc, is_lost, call)?, false)?;
    Ok(file.len().is_err())
}

/// The gate, and the first and the last byte of the sector.
fn shown(file: &mut MemDisk) -> Result<[u8; 3], DiskFailed> {
    Ok([
        byte_at(file, 129)?,
        byte_at(file, 74_688)?,
        byte_at(file, 75_711)?,
    ])
}

/// Whether the write fails at this call and leaves these.
fn leaves(alloc: Global, is_lost: bool, call: u16, bytes: [u8; 3]) -> Result<bool, Fail> {
    let mut file = after_write(tape(alloc, is_lost, call)?, true)?;
    Ok(shown(&mut file)? == bytes)
}

/// The first call at which the write fails and leaves others than these; None where there is none.
fn first_other(alloc: Global, is_lost: bool, left: &[[u8; 3]]) -> Result<Option<u16>, Fail> {
    for (call, bytes) in (0..).zip(left) {
        if !leaves(alloc, is_lost, call, *bytes)? {
            return Ok(Some(call));
        }
    }
    Ok(None)
}

/// Three calls look at the segment's bytes in the planes. Then come the writes, each with its sync. Of a write that
/// fails the first half stands: nothing of a gate, and 512 bytes of a sector.
#[test]
fn a_gate_is_closed_and_the_bytes_written_and_it_is_opened(rt: HostRuntime) -> Result<(), Fail> {
    let left = [
        [OPEN, OLD, OLD],
        [OPEN, OLD, OLD],
        [OPEN, OLD, OLD],
        [OPEN, OLD, OLD],
        [CLOSED, OLD, OLD],
        [CLOSED, NEW, OLD],
        [CLOSED, NEW, NEW],
        [CLOSED, NEW, NEW],
        [OPEN, NEW, NEW],
    ];
    let seen = (
        first_other(rt.alloc(), false, &left)?,
        is_taken_before(rt.alloc(), false, 9)?,
    );
    assert_eq!(rt; seen, (None, true));
    Ok(())
}

/// What the planes say is known since the sector was made unreadable, so no call looks at them.
#[test]
fn a_lost_sector_is_written_and_its_gate_opened(rt: HostRuntime) -> Result<(), Fail> {
    let left = [
        [CLOSED, NEW, OLD],
        [CLOSED, NEW, NEW],
        [CLOSED, NEW, NEW],
        [OPEN, NEW, NEW],
    ];
    let seen = (
        first_other(rt.alloc(), true, &left)?,
        is_taken_before(rt.alloc(), true, 4)?,
    );
    assert_eq!(rt; seen, (None, true));
    Ok(())
}

/// The byte that a sector of segment 2 has 1,024 times; None where it is lost.
fn filled(tape: &mut ImageTape<MemDisk>, sector: u8) -> Result<Option<u8>, Fail>
    requires { sector < 32 }
{
    sees_three(tape)?;
    let mut into = [0; 1024];
    match read_sector(tape, 2, sector, &mut into)? {
        SectorRead::Good if into == [into[0]; 1024] => Ok(Some(into[0])),
        SectorRead::Lost => Ok(None),
        SectorRead::Good | SectorRead::Blank => Err(Fail::from("another sector")),
    }
}

/// The same of the sectors 0 to 2.
pub fn three_filled(tape: &mut ImageTape<MemDisk>) -> Result<[Option<u8>; 3], Fail> {
    let before = filled(tape, 0)?;
    let written = filled(tape, 1)?;
    let behind = filled(tape, 2)?;
    Ok([before, written, behind])
}

/// The same of the file after a write that fails at this call, or is taken where no call fails.
fn filled_after(alloc: Global, is_lost: bool, call: u16) -> Result<[Option<u8>; 3], Fail> {
    let file = after_write(tape(alloc, is_lost, call)?, call != NEVER)?;
    three_filled(&mut tape_in(file))
}

#[test]
fn a_write_that_breaks_off_leaves_the_old_bytes_none_or_the_new(
    rt: HostRuntime,
) -> Result<(), Fail> {
    let old = Some(OLD);
    let new = Some(NEW);
    let table = [
        (false, 0, old),
        (false, 1, old),
        (false, 2, old),
        (false, 3, old),
        (false, 4, None),
        (false, 5, None),
        (false, 6, None),
        (false, 7, None),
        (false, 8, new),
        (false, NEVER, new),
        (true, 0, None),
        (true, 1, None),
        (true, 2, None),
        (true, 3, new),
        (true, NEVER, new),
    ];
    for (is_lost, call, middle) in table {
        assert_eq!(rt;
            filled_after(rt.alloc(), is_lost, call)?,
            [old, middle, old],
            "call {call}"
        );
    }
    Ok(())
}
