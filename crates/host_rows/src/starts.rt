//! What a host learns at its start, and its reports.

use crate::cable::{Row, first_wrong, put_away, written};
use drive_states::Unit;
use host_driver::{Host, Report};
use qic_base::{Tape, TapeFailed};
use qic_mem::MemTape;
use std::alloc::Global;
use std::process::Abort;

/// What a host learns: the segments per track, and whether the cartridge is protected, and referenced; None where there
/// is none.
fn learnt(unit: &mut Unit<MemTape>) -> Result<Option<(u16, bool, bool)>, TapeFailed> {
    let Some(host) = Host::start(unit)? else {
        return Ok(None);
    };
    let length = host.geometry().segments_per_track();
    Ok(Some((length, host.protected(), host.referenced())))
}

#[test]
fn a_start_that_fails_may_be_tried_again(rt: HostRuntime) {
    let mut unit = written(&rt, rt.alloc(), &[5]);
    let seen = (
        learnt(&mut unit),
        // The drive knows of no cartridge.
        first_wrong(&mut unit, &[Row::Status(0x01)]),
        learnt(&mut unit),
    );
    put_away(unit);
    assert_eq!(rt; seen, (Err(TapeFailed), None, Ok(Some((3, false, true)))));
}

/// A drive with a referenced cartridge of 100 segments per track.
fn hundred(rt: &impl Abort, alloc: Global) -> Unit<MemTape> {
    let mut tape = MemTape::new(alloc, 100, Vec::new(alloc)).expect(rt, "memory");
    tape.renew(100).expect(rt, "a cartridge");
    tape.set_referenced().expect(rt, "its bursts");
    Unit::new(tape)
}

/// The word that a host has the drive report after its start.
fn word(unit: &mut Unit<MemTape>, kind: Report) -> Option<u16> {
    let Ok(Some(mut host)) = Host::start(unit) else {
        return None;
    };
    Some(host.report(unit, kind))
}

/// At the start the drive is stopped, with a referenced cartridge at the beginning of the tape, which the host knows.
const REPORTS: [(Report, u16); 7] = [
    (Report::Status, 0x65),
    (Report::Error, 0),
    (Report::Configuration, 0),
    (Report::Rom, 1),
    (Report::Vendor, 0x0080),
    (Report::TapeStatus, 0x12),
    (Report::FormatSegments, 100),
];

#[test]
fn reports_of_every_kind_are_read(rt: HostRuntime) {
    let mut unit = hundred(&rt, rt.alloc());
    let seen = REPORTS.map(|(kind, _)| word(&mut unit, kind));
    put_away(unit);
    assert_eq!(rt; seen, REPORTS.map(|(_, want)| Some(want)));
}
