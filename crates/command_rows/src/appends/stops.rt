//! Appends in which a call of the tape fails, as a stop would cut them short.

use crate::runs::{breaks_off, prints, told};
use crate::units::{OUTCOMES, formatted_before, put_away};
use drive_states::Unit;
use qic_mem::{MemTape, Outcome};
use std::alloc::Global;
use std::process::Abort;
use tape_cmd::Status;

// The calls of the tape in an append of no byte, counted from 0. A segment that is read is a call, and so is that of the
// volume, which is written at once. A table that is whole is not settled, so nothing is written in front of the volume.

/// Puts the cartridge in. The next calls read copy 0 of the header, and then segment 2, which has the volume table.
const INSERTION: u64 = 0;
/// Reads segment 2 again.
const AGAIN: u64 = INSERTION + 1 + 1 + 1;
/// Writes the volume's segment.
const VOLUME: u64 = AGAIN + 1;
/// Reads segment 2 once more.
const BEHIND: u64 = VOLUME + 1;
/// Writes the sector of segment 2 that has the new slot. The next three calls write its sectors 29, 30 and 31.
pub const SLOT: u64 = BEHIND + 1;
/// All calls of an append.
const CALLS: u64 = SLOT + 4;

/// What `list` prints of a volume of no byte.
const ONE: &[u8] = b"1 3 3 0 1970-01-01T00:00:00 e\nvolumes 1\n";

/// What it prints of eight.
pub const EIGHT: &[u8] = b"1 3 3 0 1970-01-01T00:00:00 e
2 4 4 0 1970-01-01T00:00:00 e
3 5 5 0 1970-01-01T00:00:00 e
4 6 6 0 1970-01-01T00:00:00 e
5 7 7 0 1970-01-01T00:00:00 e
6 8 8 0 1970-01-01T00:00:00 e
7 9 9 0 1970-01-01T00:00:00 e
8 10 10 0 1970-01-01T00:00:00 e
volumes 8
";

/// What it prints of nine.
pub const NINE: &[u8] = b"1 3 3 0 1970-01-01T00:00:00 e
2 4 4 0 1970-01-01T00:00:00 e
3 5 5 0 1970-01-01T00:00:00 e
4 6 6 0 1970-01-01T00:00:00 e
5 7 7 0 1970-01-01T00:00:00 e
6 8 8 0 1970-01-01T00:00:00 e
7 9 9 0 1970-01-01T00:00:00 e
8 10 10 0 1970-01-01T00:00:00 e
9 11 11 0 1970-01-01T00:00:00 e
volumes 9
";

/// Appends a volume of no byte with the name `e`.
const APPEND: &[&str] = &["append", "e"];

/// What that prints for the first eight.
const LINES: [&[u8]; 8] = [
    b"appended 1 0 3 3\n",
    b"appended 2 0 4 4\n",
    b"appended 3 0 5 5\n",
    b"appended 4 0 6 6\n",
    b"appended 5 0 7 7\n",
    b"appended 6 0 8 8\n",
    b"appended 7 0 9 9\n",
    b"appended 8 0 10 10\n",
];

/// A drive with a formatted cartridge and eight volumes, which fill sector 0 of the table, and then an append that was
/// cut short: this call of it failed, and left this.
pub fn cut_ninth(rt: &impl Abort, alloc: Global, call: u64, outcome: Outcome) -> Unit<MemTape> {
    let mut unit = formatted_before(rt, alloc, (8 * CALLS).saturating_add(call), outcome);
    for line in LINES {
        prints(rt, alloc, &mut unit, APPEND, line);
    }
    breaks_off(rt, alloc, &mut unit, APPEND);
    unit
}

/// Whether `list` prints this text, also a second time.
pub fn lists(rt: &impl Abort, alloc: Global, unit: &mut Unit<MemTape>, text: &[u8]) -> bool {
    let first = told(rt, alloc, &["list"], unit, text);
    let second = told(rt, alloc, &["list"], unit, text);
    [first, second] == [(Status::Done, true); 2]
}

/// Whether `list` prints the volumes, also a second time, where this call of the ninth append fails. A further append
/// has to add one volume more.
fn leaves(
    rt: &impl Abort,
    alloc: Global,
    call: u64,
    outcome: Outcome,
    volumes: &[u8],
    next: &[u8],
) -> bool {
    let mut unit = cut_ninth(rt, alloc, call, outcome);
    let listed = lists(rt, alloc, &mut unit, volumes);
    prints(rt, alloc, &mut unit, APPEND, next);
    put_away(unit);
    listed
}

#[test]
fn stopped_appends(rt: HostRuntime) {
    let eight = (EIGHT, b"appended 9 0 11 11\n".as_slice());
    let nine = (NINE, b"appended 10 0 12 12\n".as_slice());
    let rows = [
        // The volume's segment.
        (VOLUME, [eight; 3]),
        // The ninth slot, in sector 1. Lost, the sector is found from the others, as it was.
        (SLOT, [eight, eight, nine]),
        // The parity: the slot is there, and counts.
        (SLOT + 1, [nine; 3]),
        (SLOT + 2, [nine; 3]),
        (SLOT + 3, [nine; 3]),
    ];
    for (call, wanted) in rows {
        for (outcome, (volumes, next)) in OUTCOMES.into_iter().zip(wanted) {
            let listed = leaves(&rt, rt.alloc(), call, outcome, volumes, next);
            assert!(rt; listed, "call {call}, {outcome:?}");
        }
    }
}

/// Whether `list` prints the volumes, also a second time, where this call of a first append fails.
fn first_leaves(
    rt: &impl Abort,
    alloc: Global,
    call: u64,
    outcome: Outcome,
    volumes: &[u8],
) -> bool {
    let mut unit = formatted_before(rt, alloc, call, outcome);
    breaks_off(rt, alloc, &mut unit, APPEND);
    let listed = lists(rt, alloc, &mut unit, volumes);
    put_away(unit);
    listed
}

#[test]
fn failing_tape(rt: HostRuntime) {
    let none = b"volumes 0\n".as_slice();
    let rows = [
        (INSERTION, Outcome::Old, none),
        (AGAIN, Outcome::Old, none),
        (VOLUME, Outcome::Old, none),
        (BEHIND, Outcome::Old, none),
        (CALLS - 1, Outcome::New, ONE),
    ];
    for (call, outcome, volumes) in rows {
        let listed = first_leaves(&rt, rt.alloc(), call, outcome, volumes);
        assert!(rt; listed, "call {call}");
    }
}

#[test]
fn an_append_has_no_more_calls(rt: HostRuntime) {
    let alloc = rt.alloc();
    // The last one is in `failing_tape`. The first call behind it is the insertion of the next command.
    let mut unit = formatted_before(&rt, alloc, CALLS, Outcome::Old);
    prints(&rt, alloc, &mut unit, APPEND, b"appended 1 0 3 3\n");
    breaks_off(&rt, alloc, &mut unit, APPEND);
    prints(&rt, alloc, &mut unit, &["list"], ONE);
    put_away(unit);
}
