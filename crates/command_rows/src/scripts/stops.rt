//! Scripts in which a call of the tape fails, as a stop would cut them short.

use crate::scripts::runs::{Ending, LISTED, SCRIPT, WHOLE, broken};
use crate::streams::{NEVER, ROOM};
use crate::units::{OUTCOMES, formatted_before, put_away};
use qic_mem::Outcome;
use std::alloc::Global;
use std::process::Abort;
use tape_cmd::Status;

// The calls of the tape in the script, counted from 0. A segment that is read is a call, and so is that of the volume, which
// is written at once. A table that is whole is not settled, and a list reads nothing of the tape.

/// Puts the cartridge in. The next calls read copy 0 of the header, segment 2, which has the volume table, and that
/// again.
const INSERTION: u64 = 0;
/// Writes the volume's segment.
const VOLUME: u64 = INSERTION + 1 + 1 + 1 + 1;
/// Reads segment 2 once more.
const BEHIND: u64 = VOLUME + 1;
/// Writes the sector of segment 2 that has the slot. The next three calls write its sectors of parity.
const SLOT: u64 = BEHIND + 1;
/// Reads the volume's segment, to give it back.
const GIVING: u64 = SLOT + 4;
/// All calls of the script.
const CALLS: u64 = GIVING + 1;

/// How the worked script ends where this call fails, and leaves this.
fn ending_before(rt: &impl Abort, alloc: Global, call: u64, left: Outcome) -> Ending {
    let mut unit = formatted_before(rt, alloc, call, left);
    let ending = broken(rt, alloc, &mut unit, SCRIPT, NEVER, ROOM, NEVER);
    put_away(unit);
    ending
}

/// Tries each of these calls as the one that fails. The script has to print so many bytes, and to leave so many
/// volumes.
fn breaks_off(
    rt: &impl Abort,
    alloc: Global,
    calls: (u64, u64),
    left: Outcome,
    printed: usize,
    volumes: u32,
) {
    let want = (Status::TapeFault, Some(printed), Some(volumes));
    for call in calls.0..calls.1 {
        let ending = ending_before(rt, alloc, call, left);
        assert_eq!(rt; ending, want, "call {call}, {left:?}");
    }
}

#[test]
fn a_read_before_the_volume_stands(rt: HostRuntime) {
    let alloc = rt.alloc();
    breaks_off(&rt, alloc, (INSERTION, VOLUME), Outcome::Old, 0, 0);
    breaks_off(&rt, alloc, (BEHIND, SLOT), Outcome::Old, 0, 0);
}

#[test]
fn a_write_of_the_volume(rt: HostRuntime) {
    for left in OUTCOMES {
        breaks_off(&rt, rt.alloc(), (VOLUME, BEHIND), left, 0, 0);
    }
}

#[test]
fn a_write_of_the_table_or_a_later_read(rt: HostRuntime) {
    let rows = [
        // Lost, the sector of the slot is found from the others, as it was.
        (SLOT, SLOT + 1, Outcome::Old, 0, 0),
        (SLOT, SLOT + 1, Outcome::Lost, 0, 0),
        (SLOT, SLOT + 1, Outcome::New, 0, 1),
        // The slot is there, and counts.
        (SLOT + 1, GIVING, Outcome::Old, 0, 1),
        (SLOT + 1, GIVING, Outcome::Lost, 0, 1),
        (SLOT + 1, GIVING, Outcome::New, 0, 1),
        // The volume is appended and listed, and its segment is read before a byte of it is printed.
        (GIVING, CALLS, Outcome::Old, LISTED, 1),
    ];
    for (first, behind, left, printed, volumes) in rows {
        breaks_off(&rt, rt.alloc(), (first, behind), left, printed, volumes);
    }
}

#[test]
fn a_script_has_no_more_calls(rt: HostRuntime) {
    // The first call behind them is the insertion of `list`.
    assert_eq!(rt;
        ending_before(&rt, rt.alloc(), CALLS, Outcome::Old),
        (Status::Done, Some(WHOLE), None)
    );
}
