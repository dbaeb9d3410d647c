//! The reference bursts and a segment formatted, where the tape fails at first.

use crate::cable::{Row, blank, first_wrong, put_away};
use crate::trains::front;
use drive_states::{FdcFault, Unit};
use host_driver::Host;
use qic_base::TapeFailed;
use qic_mem::MemTape;
use qic117_commands::Mode;

/// Has a host write the reference bursts. The answer, and whether the host knows the cartridge as referenced then; None
/// where it comes to no writing.
fn reference(unit: &mut Unit<MemTape>) -> Option<(Result<(), TapeFailed>, bool)> {
    let Ok(Some(mut host)) = Host::start(unit) else {
        return None;
    };
    let Ok(()) = host.enter(unit, Mode::Format) else {
        return None;
    };
    let answer = host.reference(unit);
    Some((answer, host.referenced()))
}

/// Has a host write the reference bursts and format segment 0. The answer of the format; None where it comes to none.
/// On a cartridge of `blank` call 1 of the tape puts it in, 2 writes the bursts and 3 formats the segment: modes and
/// the way there make none.
fn format_first(unit: &mut Unit<MemTape>) -> Option<Result<(), TapeFailed>> {
    let Ok(Some(mut host)) = Host::start(unit) else {
        return None;
    };
    let Ok(()) = host.enter(unit, Mode::Format) else {
        return None;
    };
    let Ok(()) = host.reference(unit) else {
        return None;
    };
    host.go_to(unit, 0);
    Some(host.format_here(unit))
}

#[test]
fn a_format_that_fails_leaves_the_head_at_its_segment(rt: HostRuntime) {
    let mut unit = blank(&rt, rt.alloc(), &[3]);
    let answer = format_first(&mut unit);
    let rows = [
        Row::Status(0x24),
        Row::Format,
        // The tape goes from where it streams in Format mode to the start of track 0.
        Row::Train(18),
        Row::Train(30),
        Row::Train(14),
        Row::AtLoadPoint,
        Row::Train(10),
        Row::Shows(front(32), 0),
        Row::Train(0),
        Row::Refuses(front(33), FdcFault::NoAddress),
    ];
    let seen = (answer, first_wrong(&mut unit, &rows));
    put_away(unit);
    assert_eq!(rt; seen, (Some(Err(TapeFailed)), None));
}

#[test]
fn a_drive_without_its_bursts_is_on_its_way(rt: HostRuntime) {
    let mut unit = blank(&rt, rt.alloc(), &[2]);
    let seen = [
        (
            reference(&mut unit),
            first_wrong(&mut unit, &[Row::AtLoadPoint, Row::Status(0x45)]),
        ),
        // The next time it does not fail, and the cartridge is referenced.
        (
            reference(&mut unit),
            first_wrong(&mut unit, &[Row::Status(0x65)]),
        ),
    ];
    put_away(unit);
    assert_eq!(rt;
        seen,
        [
            (Some((Err(TapeFailed), false)), None),
            (Some((Ok(()), true)), None),
        ]
    );
}
