//! Places of the tape and their floppy addresses, of `tape_geometry`.

use std::test::Fail;
use tape_geometry::{FloppyAddr, Geometry};

fn addr(head: u8, cylinder: u8, sector: u8) -> FloppyAddr {
    FloppyAddr {
        head,
        cylinder,
        sector,
    }
}

#[test]
fn a_cartridge_has_3_to_246_segments_a_track(rt: HostRuntime) {
    let lengths = [0, 2, 3, 151, 246, 247].map(|length| Geometry::new(length).is_ok());
    assert_eq!(rt; lengths, [false, false, true, true, true, false]);
}

/// The first of some addresses at which there is another place, or none where there is one.
fn first_elsewhere(
    tape: &Geometry,
    rows: &[(FloppyAddr, Option<(u32, u8)>)],
) -> Option<FloppyAddr> {
    for (at, place) in rows {
        if tape.place(*at) != *place {
            return Some(*at);
        }
    }
    None
}

#[test]
fn places_on_the_long_tape(rt: HostRuntime) -> Result<(), Fail> {
    let tape = Geometry::new(150).ok().ok_or("150 is a length")?;
    let numbers = [
        u32::from(tape.segments_per_track()),
        tape.segments(),
        u32::from(tape.track_of(617)),
        u32::from(tape.logical_offset(617)),
    ];
    let addresses = [tape.address(617, 0), tape.address(4199, 31)];
    let places = [
        (addr(6, 149, 128), Some((4199, 31))),
        (addr(7, 0, 1), None),
        (addr(255, 149, 128), None),
        (addr(0, 150, 1), None),
        (addr(0, 0, 0), None),
        (addr(0, 0, 129), None),
    ];
    assert_eq!(rt;
        (numbers, addresses, first_elsewhere(&tape, &places)),
        (
            [150, 4200, 4, 17],
            [addr(1, 4, 33), addr(6, 149, 128)],
            None,
        )
    );
    let longest = Geometry::new(246).ok().ok_or("246 is a length")?;
    let places = [
        (addr(11, 71, 128), Some((6887, 31))),
        (addr(11, 72, 1), None),
    ];
    assert_eq!(rt;
        (
            longest.segments(),
            longest.address(6887, 31),
            first_elsewhere(&longest, &places),
        ),
        (6888, addr(11, 71, 128), None)
    );
    Ok(())
}

/// The first place of a tape that is not found again by its address.
fn first_not_found(tape: Geometry) -> Option<(u32, u8)> {
    for segment in 0..tape.segments() {
        for sector in 0..32 {
            if tape.place(tape.address(segment, sector)) != Some((segment, sector)) {
                return Some((segment, sector));
            }
        }
    }
    None
}

#[test]
fn each_place_is_found_again(rt: HostRuntime) -> Result<(), Fail> {
    let shortest = Geometry::new(3).ok().ok_or("3 is a length")?;
    let longest = Geometry::new(246).ok().ok_or("246 is a length")?;
    assert_eq!(rt;
        [first_not_found(shortest), first_not_found(longest)],
        [None; 2]
    );
    Ok(())
}
