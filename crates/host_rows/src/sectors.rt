//! The first sector of segment 4, and several of it in one call, read, written and worn through a host, where the tape
//! fails. Call 5 of it puts the cartridge in; the way makes none, and 6 is the sector's.

use crate::cable::{Row, begun, first_wrong, put_away, written};
use crate::trains::{FIRST_OF_FOUR, WRITTEN};
use drive_states::Unit;
use host_driver::HandFault;
use qic_base::{LostSet, Sector, SectorRead, SectorWrite, SectorsRead, TapeFailed};
use qic_mem::MemTape;

fn read(unit: &mut Unit<MemTape>, into: &mut Sector) -> Option<Result<SectorRead, TapeFailed>> {
    let mut host = begun(unit)?;
    host.go_to(unit, 4);
    Some(host.read_sector(unit, 4, 0, into))
}

fn write(unit: &mut Unit<MemTape>, from: &Sector) -> Option<Result<SectorWrite, TapeFailed>> {
    let mut host = begun(unit)?;
    host.go_to(unit, 4);
    Some(host.write_sector(unit, 4, 0, from))
}

/// Reads sectors of segment 4 in one call.
fn read_several(
    unit: &mut Unit<MemTape>,
    wanted: u32,
    into: &mut [Sector; 32],
) -> Option<Result<SectorsRead, TapeFailed>> {
    let mut host = begun(unit)?;
    host.go_to(unit, 4);
    Some(host.read_sectors(unit, 4, LostSet::from_mask(wanted), into))
}

/// Writes sectors of segment 4 in one call.
fn write_several(
    unit: &mut Unit<MemTape>,
    written: u32,
    from: &[Sector; 32],
) -> Option<Result<LostSet, TapeFailed>> {
    let mut host = begun(unit)?;
    host.go_to(unit, 4);
    Some(host.write_sectors(unit, 4, LostSet::from_mask(written), from))
}

/// What a read finds where these sectors are good and none is blank.
fn all_good(good: u32) -> Option<Result<SectorsRead, TapeFailed>> {
    Some(Ok(SectorsRead {
        good: LostSet::from_mask(good),
        blank: LostSet::from_mask(0),
    }))
}

/// Has a host that knows the cartridge wear a sector.
fn wear(
    unit: &mut Unit<MemTape>,
    segment: u32,
    sector: u32,
) -> Option<Result<Result<(), HandFault>, TapeFailed>> {
    let mut host = begun(unit)?;
    Some(host.wear(unit, segment, sector))
}

/// The sector still has its bytes, and the head comes to it next.
const KEPT: [Row; 1] = [Row::Shows(FIRST_OF_FOUR, WRITTEN)];

#[test]
fn a_read_that_fails_leaves_the_head_where_it_was(rt: HostRuntime) {
    let mut unit = written(&rt, rt.alloc(), &[6]);
    let mut into = [1; 1024];
    let answer = read(&mut unit, &mut into);
    let seen = (answer, into, first_wrong(&mut unit, &KEPT));
    put_away(unit);
    assert_eq!(rt; seen, (Some(Err(TapeFailed)), [1; 1024], None));
}

#[test]
fn a_write_that_fails_leaves_the_head_where_it_was(rt: HostRuntime) {
    let mut unit = written(&rt, rt.alloc(), &[6]);
    let answer = write(&mut unit, &[9; 1024]);
    let seen = (answer, first_wrong(&mut unit, &KEPT));
    put_away(unit);
    assert_eq!(rt; seen, (Some(Err(TapeFailed)), None));
}

#[test]
fn a_read_of_several_that_fails_leaves_the_head_where_it_was(rt: HostRuntime) {
    let mut unit = written(&rt, rt.alloc(), &[6]);
    let mut into = [[1; 1024]; 32];
    let answer = read_several(&mut unit, 3, &mut into);
    let seen = (answer, into[0], first_wrong(&mut unit, &KEPT));
    put_away(unit);
    assert_eq!(rt; seen, (Some(Err(TapeFailed)), [1; 1024], None));
}

#[test]
fn several_sectors_are_read_and_written_in_one_call(rt: HostRuntime) {
    let mut unit = written(&rt, rt.alloc(), &[]);
    let mut into = [[1; 1024]; 32];
    let seen = (
        wear(&mut unit, 4, 1),
        read_several(&mut unit, 7, &mut into),
        write_several(&mut unit, 6, &[[9; 1024]; 32]),
    );
    let found = [into[0], into[1], into[2], into[3]];
    let again = (read_several(&mut unit, 3, &mut into), [into[0], into[1]]);
    put_away(unit);
    assert_eq!(rt;
        (seen, found, again),
        (
            (
                Some(Ok(Ok(()))),
                all_good(5),
                Some(Ok(LostSet::from_mask(0)))
            ),
            [[WRITTEN; 1024], [1; 1024], [0; 1024], [1; 1024]],
            (all_good(3), [[WRITTEN; 1024], [9; 1024]]),
        )
    );
}

#[test]
fn a_host_wears_the_sectors_of_its_cartridge(rt: HostRuntime) {
    let mut unit = written(&rt, rt.alloc(), &[6]);
    let mut into = [1; 1024];
    let refused = [
        wear(&mut unit, 4, 0),
        wear(&mut unit, 84, 0),
        wear(&mut unit, 0, 32),
    ];
    let seen = (
        read(&mut unit, &mut into),
        wear(&mut unit, 4, 0),
        read(&mut unit, &mut into),
    );
    put_away(unit);
    assert_eq!(rt;
        (refused, seen),
        (
            [
                Some(Err(TapeFailed)),
                Some(Ok(Err(HandFault::BadPlace))),
                Some(Ok(Err(HandFault::BadPlace))),
            ],
            (
                Some(Ok(SectorRead::Good)),
                Some(Ok(Ok(()))),
                Some(Ok(SectorRead::Lost)),
            ),
        )
    );
}
