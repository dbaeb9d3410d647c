//! An image of version 2 on a disk that fails in 512 of its bytes: which of its sectors are read, one by one and all of a
//! segment by one call. Sector 5 of segment 2, which has the number 69, is lost, and sector 7 a defect; the others hold zeros. Segment
//! 3, which begins with the sector of number 96, was never formatted.

ghost use Rattle.std.specs.Prelude.{◌<◌};

use crate::files::{LENGTH, NEW, sees_three, tape_in};
use crate::scratched::Scratched;
use cart_image::ImageTape;
use qic_base::{Disk, LostSet, SectorRead, SectorsRead, Tape, TapeFailed, read_sector};
use qic_mem::MemDisk;
use std::alloc::Global;
use std::test::Fail;

/// The file of that image.
fn image(alloc: Global) -> Result<MemDisk, Fail> {
    let mut tape = tape_in(MemDisk::new(alloc, LENGTH, Vec::new(alloc))?);
    tape.renew(3)?;
    let _ = tape.spoil(2, 7)?;
    tape.format_segment(2)?;
    tape.wear(2, 5)?;
    Ok(tape.into_disk())
}

/// What a read of a sector of segment 2 or 3 answers; None where it fails.
fn answer<D: Disk>(
    tape: &mut ImageTape<D>,
    segment: u32,
    sector: u8,
) -> Result<Option<SectorRead>, Fail>
    requires segment { segment < 84 }
    requires sector { sector < 32 }
{
    sees_three(tape)?;
    let mut into = [NEW; 1024];
    match read_sector(tape, segment, sector, &mut into) {
        Err(TapeFailed) => Ok(None),
        Ok(SectorRead::Good) if into != [0; 1024] => Err(Fail::from("other bytes")),
        Ok(read) => Ok(Some(read)),
    }
}

/// The tape in the image. The bad bytes are among the 1,024 of the sector with this number.
fn tape_of(alloc: Global, bad: u16) -> Result<ImageTape<Scratched>, Fail> {
    let first = 64 + 1027 * u64::from(bad) + 3 + 256;
    Ok(ImageTape::open(Scratched::new(image(alloc)?, first, 512), 0))
}

/// The answers of the sectors of segment 2 and of the first of segment 3.
fn answers(
    alloc: Global,
    bad: u16,
) -> Result<([Option<SectorRead>; 32], Option<SectorRead>), Fail> {
    let mut tape = tape_of(alloc, bad)?;
    let mut answers = [None; 32];
    for i in 0..32 {
        answers[i] = answer(&mut tape, 2, i as u8)?;
    }
    Ok((answers, answer(&mut tape, 3, 0)?))
}

/// What they answer where no byte that is needed is bad.
fn whole() -> [Option<SectorRead>; 32] {
    let mut whole = [Some(SectorRead::Good); 32];
    whole[5] = Some(SectorRead::Lost);
    whole[7] = Some(SectorRead::Lost);
    whole
}

#[test]
fn bad_bytes_that_no_sector_holds_cost_no_read(rt: HostRuntime) -> Result<(), Fail> {
    // In the lost sector, in the defect, and in one that was never formatted.
    for bad in [69, 71, 96] {
        assert_eq!(rt;
            answers(rt.alloc(), bad)?,
            (whole(), Some(SectorRead::Blank)),
            "sector {bad}"
        );
    }
    Ok(())
}

#[test]
fn bad_bytes_of_a_readable_sector_fail_it_alone(rt: HostRuntime) -> Result<(), Fail> {
    let mut expected = whole();
    expected[9] = None;
    let seen = answers(rt.alloc(), 73)?;
    assert_eq!(rt; seen, (expected, Some(SectorRead::Blank)));
    Ok(())
}

/// What a read of wanted sectors of a segment by one call finds; None where it fails. The sectors that were read hold zeros,
/// and the entries of the others stay.
fn read(
    tape: &mut ImageTape<Scratched>,
    segment: u32,
    wanted: u32,
) -> Result<Option<SectorsRead>, Fail>
    requires { segment < 84 }
{
    sees_three(tape)?;
    let mut into = [[NEW; 1024]; 32];
    match tape.read_sectors(segment, LostSet::from_mask(wanted), &mut into) {
        Err(TapeFailed) if into == [[NEW; 1024]; 32] => Ok(None),
        Ok(read) if into == entries(read.good) => Ok(Some(read)),
        _ => Err(Fail::from("other bytes")),
    }
}

/// Zeros in these entries.
fn entries(zeroed: LostSet) -> [[u8; 1024]; 32] {
    let mut entries = [[NEW; 1024]; 32];
    for i in 0..32 {
        if zeroed.contains(i) {
            entries[usize::from(i)] = [0; 1024];
        }
    }
    entries
}

/// All sectors but the lost one and the defect.
const GOOD: u32 = !(1 << 5 | 1 << 7);

/// These were found, and no others.
fn found(good: u32, blank: u32) -> Option<SectorsRead> {
    Some(SectorsRead {
        good: LostSet::from_mask(good),
        blank: LostSet::from_mask(blank),
    })
}

/// A read of the whole segment at once fails in the bad bytes, and falls back to the bytes of the readable sectors.
#[test]
fn a_segment_is_read_where_no_readable_sector_is_bad(rt: HostRuntime) -> Result<(), Fail> {
    for bad in [69, 71, 96] {
        let mut tape = tape_of(rt.alloc(), bad)?;
        let seen = (read(&mut tape, 2, u32::MAX)?, read(&mut tape, 3, u32::MAX)?);
        assert_eq!(rt; seen, (found(GOOD, 0), found(0, u32::MAX)), "sector {bad}");
    }
    Ok(())
}

/// It falls back to the bytes of those alone that are wanted.
#[test]
fn a_bad_sector_that_is_not_wanted_costs_no_read(rt: HostRuntime) -> Result<(), Fail> {
    let mut tape = tape_of(rt.alloc(), 73)?;
    let seen = (
        read(&mut tape, 2, u32::MAX)?,
        read(&mut tape, 2, !(1 << 9))?,
    );
    assert_eq!(rt; seen, (None, found(GOOD & !(1 << 9), 0)));
    Ok(())
}
