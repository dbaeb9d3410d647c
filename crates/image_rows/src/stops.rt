//! What a write of a sector leaves of the other sectors, whichever of its calls of the disk fails. It is sector 1 of
//! segment 2, which has the number 65.

ghost use Rattle.std.specs.Prelude.{◌<◌};

use crate::files::{image, sees_three, tape_in};
use crate::sectors::{after_write, held};
use cart_image::ImageTape;
use qic_base::{Sector, SectorRead, read_sector};
use qic_mem::MemDisk;
use std::alloc::Global;
use std::test::Fail;

/// What a read of a sector finds, and its bytes.
fn view(
    tape: &mut ImageTape<MemDisk>,
    segment: u32,
    sector: u8,
) -> Result<(SectorRead, Sector), Fail>
    requires segment { segment < 84 }
    requires sector { sector < 32 }
{
    sees_three(tape)?;
    let mut into = [0; 1024];
    let read = read_sector(tape, segment, sector, &mut into)?;
    Ok((read, into))
}

/// How many sectors of a segment two tapes have alike, but for sector 1 of segment 2.
fn alike(
    one: &mut ImageTape<MemDisk>,
    other: &mut ImageTape<MemDisk>,
    segment: u32,
) -> Result<u16, Fail>
    requires { segment < 84 }
{
    let mut count: u16 = 0;
    for sector in 0..32 {
        let is_written = segment == 2 && sector == 1;
        if !is_written && view(one, segment, sector)? == view(other, segment, sector)? {
            count = count.saturating_add(1);
        }
    }
    Ok(count)
}

/// How many sectors two tapes have alike, but for that one.
fn all_alike(one: &mut ImageTape<MemDisk>, other: &mut ImageTape<MemDisk>) -> Result<u16, Fail> {
    let mut count: u16 = 0;
    for segment in 0..84 {
        count = count.saturating_add(alike(one, other, segment)?);
    }
    Ok(count)
}

/// The same of the image before the write and after it.
fn kept(alloc: Global, call: u16) -> Result<u16, Fail> {
    let mut before = tape_in(image(alloc, Vec::new(alloc))?);
    let mut after = tape_in(after_write(held(alloc, call)?, true)?);
    all_alike(&mut before, &mut after)
}

/// Three calls look at the sector's bytes in the planes. Then come the closed gate, the bytes and the open gate, each
/// with its sync. The cartridge has 2,688 sectors.
#[test]
fn a_write_that_breaks_off_leaves_every_other_sector(rt: HostRuntime) -> Result<(), Fail> {
    for call in 0..9 {
        assert_eq!(rt; kept(rt.alloc(), call)?, 2_687, "call {call}");
    }
    Ok(())
}
