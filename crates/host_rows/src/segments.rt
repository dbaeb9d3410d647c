//! A segment with bad sectors, written and read.

ghost use Rattle.std.specs.Prelude.{◌≤◌};

use crate::cable::{begun, put_away, tape};
use drive_states::{HandFault, Unit};
use qic_base::{LostSet, Sector, Tape, TapeFailed};
use qic_mem::MemTape;
use segment_io::{SegFault, Workspace, collect, read_segment, write_sectors, write_segment};
use std::alloc::Global;
use std::process::Abort;

/// A segment amid a track.
const SEGMENT: u32 = 40;

/// All its sectors but 3, 17, 30 and 31. Of the 28 usable ones 25 hold data, at the places 0 to 24, and the sectors 27,
/// 28 and 29 parity.
const USABLE: u32 = 0x3FFD_FFF7;

/// The places 1, 16 and 27, which are those of the sectors 1, 18 and 29.
const THREE: u32 = 0x0801_0002;

/// A drive with a referenced cartridge of three segments per track, of which the segment is formatted. Its sectors 3
/// and 30 are defects. Calls 0 to 4 of the tape made all this, and `begun` makes call 5.
fn marked(rt: &impl Abort, alloc: Global, fails: &[u64]) -> Unit<MemTape> {
    let mut tape = tape(rt, alloc, fails);
    mark(&mut tape).expect(rt, "a cartridge");
    Unit::new(tape)
}

/// Takes away what a test worked with.
fn put_both_away(unit: Unit<MemTape>, _work: Workspace) {
    put_away(unit);
}

fn mark(tape: &mut MemTape) -> Result<(), TapeFailed> {
    tape.renew(3)?;
    tape.set_referenced()?;
    tape.spoil(SEGMENT, 3)?;
    tape.spoil(SEGMENT, 30)?;
    tape.format_segment(SEGMENT)
}

fn write(unit: &mut Unit<MemTape>, work: &mut Workspace) -> Option<Result<(), TapeFailed>> {
    let mut host = begun(unit)?;
    Some(write_segment(&mut host, unit, SEGMENT, USABLE, work))
}

fn write_three(unit: &mut Unit<MemTape>, work: &Workspace) -> Option<Result<(), TapeFailed>> {
    let mut host = begun(unit)?;
    let places = LostSet::from_mask(THREE);
    Some(write_sectors(&mut host, unit, SEGMENT, USABLE, places, work))
}

/// The answer of a call, with the mask of the places that can't be read.
fn mask_of<E>(answer: Result<LostSet, E>) -> Result<u32, E> {
    match answer {
        Ok(lost) => Ok(lost.mask()),
        Err(fault) => Err(fault),
    }
}

fn read(
    unit: &mut Unit<MemTape>,
    work: &mut Workspace,
) -> Option<Result<Result<u32, SegFault>, TapeFailed>> {
    let mut host = begun(unit)?;
    match read_segment(&mut host, unit, SEGMENT, USABLE, work) {
        Ok(read) => Some(Ok(mask_of(read))),
        Err(failed) => Some(Err(failed)),
    }
}

fn gather(unit: &mut Unit<MemTape>, work: &mut Workspace) -> Option<Result<u32, TapeFailed>> {
    let mut host = begun(unit)?;
    Some(mask_of(collect(&mut host, unit, SEGMENT, USABLE, work)))
}

/// Wears a sector of the segment.
fn wear(unit: &mut Unit<MemTape>, sector: u32) -> Result<Result<(), HandFault>, TapeFailed> {
    unit.wear(SEGMENT, sector)
}

/// The bytes that `fill` puts at a place.
fn bytes(place: u8, first: u8) -> Sector {
    let mut sector = [place.wrapping_add(first); 1024];
    sector[1023] = first;
    sector
}

/// Fills the workspace, with other bytes for another `first`.
fn fill(work: &mut Workspace, first: u8) {
    let mut place = 0u8;
    for sector in work.sectors_mut() {
        *sector = bytes(place, first);
        place = place.wrapping_add(1);
    }
}

/// Whether the sectors from one place to another have the bytes that `fill` puts there.
fn are_filled(work: &Workspace, from: u8, end: u8, first: u8) -> bool
    requires { end ≤ 32 }
{
    for place in from..end {
        if work.sectors()[place as usize] != bytes(place, first) {
            return false;
        }
    }
    true
}

/// Whether the sectors from one place to another are zero bytes.
fn are_zero(work: &Workspace, from: u8, end: u8) -> bool
    requires { end ≤ 32 }
{
    for place in from..end {
        if work.sectors()[place as usize] != [0; 1024] {
            return false;
        }
    }
    true
}

#[test]
fn a_written_segment_is_read_without_three_sectors(rt: HostRuntime) {
    let mut unit = marked(&rt, rt.alloc(), &[]);
    let mut work = Workspace::new(rt.alloc()).expect(&rt, "memory");
    fill(&mut work, 10);
    let written = write(&mut unit, &mut work);
    // They are at the places 0, 16 and 27: the sectors 3 and 17 have none.
    let worn = [wear(&mut unit, 0), wear(&mut unit, 18), wear(&mut unit, 29)];
    fill(&mut work, 99);
    let found = (read(&mut unit, &mut work), are_filled(&work, 0, 25, 10));
    let lost = (wear(&mut unit, 4), read(&mut unit, &mut work));
    let fault = SegFault::Lost {
        segment: SEGMENT,
        lost: 4,
    };
    put_both_away(unit, work);
    assert_eq!(rt;
        (written, worn, found, lost),
        (
            Some(Ok(())),
            [Ok(Ok(())); 3],
            (Some(Ok(Ok(0x0801_0001))), true),
            (Ok(Ok(())), Some(Ok(Err(fault))))
        )
    );
}

/// Call 6 writes the segment.
#[test]
fn a_write_that_fails_leaves_the_segment_as_it_was(rt: HostRuntime) {
    let mut unit = marked(&rt, rt.alloc(), &[6]);
    let mut work = Workspace::new(rt.alloc()).expect(&rt, "memory");
    fill(&mut work, 10);
    let failed = write(&mut unit, &mut work);
    let left = (gather(&mut unit, &mut work), are_zero(&work, 0, 28));
    fill(&mut work, 10);
    let written = write(&mut unit, &mut work);
    let gathered = (gather(&mut unit, &mut work), are_filled(&work, 0, 25, 10));
    put_both_away(unit, work);
    assert_eq!(rt;
        (failed, left, written, gathered),
        (
            Some(Err(TapeFailed)),
            (Some(Ok(0)), true),
            Some(Ok(())),
            (Some(Ok(0)), true)
        )
    );
}

/// Here call 6 is the first of three, and call 9 the second of those that come then.
#[test]
fn a_fault_leaves_the_named_writes_before_it(rt: HostRuntime) {
    let mut unit = marked(&rt, rt.alloc(), &[6, 9]);
    let mut work = Workspace::new(rt.alloc()).expect(&rt, "memory");
    fill(&mut work, 10);
    let written = [write_three(&mut unit, &work), write_three(&mut unit, &work)];
    let gathered = (
        gather(&mut unit, &mut work),
        are_zero(&work, 0, 1),
        are_filled(&work, 1, 2, 10),
        are_zero(&work, 2, 28),
    );
    put_both_away(unit, work);
    assert_eq!(rt;
        (written, gathered),
        ([Some(Err(TapeFailed)); 2], (Some(Ok(0)), true, true, true))
    );
}

/// Calls 6, 8 and 10 read the segment, each behind an insertion.
#[test]
fn a_read_that_fails_is_told(rt: HostRuntime) {
    let mut unit = marked(&rt, rt.alloc(), &[6, 8, 10]);
    let mut work = Workspace::new(rt.alloc()).expect(&rt, "memory");
    let told = (
        gather(&mut unit, &mut work),
        [read(&mut unit, &mut work), read(&mut unit, &mut work)],
        gather(&mut unit, &mut work),
    );
    let seen = (are_zero(&work, 0, 28), read(&mut unit, &mut work));
    put_both_away(unit, work);
    assert_eq!(rt;
        (told, seen),
        (
            (
                Some(Err(TapeFailed)),
                [Some(Err(TapeFailed)); 2],
                Some(Ok(0))
            ),
            (true, Some(Ok(Ok(0))))
        )
    );
}
