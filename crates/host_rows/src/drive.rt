//! The drive alone: sector calls and a person's hand, past any host. These functions have no clause, so the proof of a test
//! knows nothing of a drive but that it is one.

use crate::cable::{Row, first_wrong, put_away, tape, written};
use crate::trains::{WRITTEN, front};
use drive_states::{FdcFault, HandFault, Unit};
use qic_base::{Tape, TapeFailed};
use qic_mem::SureTape;
use std::alloc::Global;
use std::process::Abort;
use std::test::Fail;

/// The number of the first wrong one of these rows at a drive of `written`.
fn first_wrong_written(
    rt: &impl Abort,
    alloc: Global,
    fails: &[u64],
    rows: &[Row],
) -> Option<usize> {
    let mut unit = written(rt, alloc, fails);
    let wrong = first_wrong(&mut unit, rows);
    put_away(unit);
    wrong
}

#[test]
fn an_empty_drive_takes_a_blank_cartridge_alone(rt: HostRuntime) {
    let mut unit = Unit::new(tape(&rt, rt.alloc(), &[]));
    let wrong = first_wrong(
        &mut unit,
        &[
            Row::Status(0x01),
            Row::Protect(true, Ok(Err(HandFault::NoCartridge))),
            Row::Wear(84, 32, Ok(Err(HandFault::NoCartridge))),
            Row::Spoil(0, 0, Ok(Err(HandFault::NoCartridge))),
            Row::Upgrade(Ok(Err(HandFault::NoCartridge))),
            Row::Load(3, Ok(())),
            Row::Status(0x55),
            Row::Upgrade(Ok(Ok(2))),
            Row::Status(0x55),
            // The tape has no room for a longer one, and the drive then knows of none.
            Row::Load(4, Err(TapeFailed)),
            Row::Status(0x01),
        ],
    );
    put_away(unit);
    assert_eq!(rt; wrong, None);
}

#[test]
fn the_count_of_pulses_stops_at_255(rt: HostRuntime) {
    let rows = [
        Row::Insert,
        Row::Insert,
        // The error word of a command that there isn't.
        Row::Train(300),
        Row::Error(0xFF06),
    ];
    assert_eq!(rt; first_wrong_written(&rt, rt.alloc(), &[], &rows), None);
}

#[test]
fn sectors_are_written_as_they_pass(rt: HostRuntime) {
    let rows = [
        Row::Insert,
        Row::Insert,
        // The error word is told, which clears the new cartridge flag.
        Row::Error(0),
        Row::Train(10),
        Row::Write(front(6), Ok(Ok(()))),
        Row::Write(front(6), Ok(Err(FdcFault::NoAddress))),
        // The tape stops before the segment, and comes to it again.
        Row::Train(18),
        Row::Train(10),
        Row::Shows(front(5), 0),
        Row::Shows(front(6), WRITTEN),
        Row::Protect(true, Ok(Ok(()))),
        Row::Error(0),
        Row::Train(10),
        Row::Write(front(5), Ok(Err(FdcFault::Protected))),
        Row::Shows(front(5), 0),
    ];
    assert_eq!(rt; first_wrong_written(&rt, rt.alloc(), &[], &rows), None);
}

#[test]
fn a_fault_of_the_tape_leaves_the_head_where_it_was(rt: HostRuntime) {
    // Calls 5 and 6 of the tape put the cartridge in; 7 is the first read, 9 the first write, and 11 the upgrade.
    let rows = [
        Row::Insert,
        Row::Insert,
        Row::Error(0),
        Row::Train(10),
        Row::Fails(front(1)),
        Row::Shows(front(1), 0),
        Row::Write(front(2), Err(TapeFailed)),
        Row::Write(front(2), Ok(Ok(()))),
        Row::Upgrade(Err(TapeFailed)),
        Row::Status(0x01),
    ];
    assert_eq!(rt;
        first_wrong_written(&rt, rt.alloc(), &[7, 9, 11], &rows),
        None
    );
}

/// A drive whose tape never fails, with a cartridge of three segments per track whose segment 0 is formatted.
fn sure(alloc: Global) -> Result<Unit<SureTape>, Fail> {
    let mut tape = SureTape::new(alloc)?;
    tape.renew(3)?;
    tape.format_segment(0)?;
    let mut unit = Unit::new(tape);
    unit.insert()?;
    Ok(unit)
}

/// What a person finds who spoils the first sector of a segment there.
fn spoiled(alloc: Global, segment: u32) -> Result<Result<(), HandFault>, Fail> {
    Ok(sure(alloc)?.spoil(segment, 0)?)
}

#[test]
fn a_formatted_sector_is_not_blank_though_no_call_fails(rt: HostRuntime) -> Result<(), Fail> {
    let answers = [spoiled(rt.alloc(), 0)?, spoiled(rt.alloc(), 1)?];
    assert_eq!(rt; answers, [Err(HandFault::NotBlank), Ok(())]);
    Ok(())
}
