//! Copies in which a call of the target's tape fails, as a stop would cut them short, and then the copy run again.

use crate::cartridges::{BYTES, put_away, target_before, two_volumes};
use crate::copies::{BOTH, LIST, NEITHER};
use crate::runs::{copied, prints};
use drive_states::Unit;
use qic_base::StoreFault;
use qic_mem::{MemTape, Outcome};
use std::alloc::Global;
use std::process::Abort;
use volume_copy::CopyStatus;

// The calls of the target's tape in a copy of both volumes, counted from 0. A segment that is read is a call, and so is
// that of a volume, which is written at once. A table that is whole is not settled, so nothing is written in front of the
// volumes.

/// Puts the cartridge in.
const INSERTION: u64 = 0;
/// Reads copy 0 of the header.
const HEADER: u64 = INSERTION + 1;
/// Reads segment 2, which has the volume table.
const TABLE: u64 = HEADER + 1;

/// The first call of the first volume's copy.
const FIRST: u64 = TABLE + 1;
/// The first call of the second one's.
const SECOND: u64 = FIRST + COPIED;
/// All calls of the copy.
const CALLS: u64 = SECOND + COPIED;

// The calls of one volume's copy, counted from its first. Either volume takes one segment.

/// Reads segment 2 again.
const AGAIN: u64 = 0;
/// Writes the volume's segment.
const VOLUME: u64 = AGAIN + 1;
/// Reads segment 2 once more.
const BEHIND: u64 = VOLUME + 1;
/// Writes the sector of segment 2 that has the new slot. The next three calls write its sectors 29, 30 and 31.
const SLOT: u64 = BEHIND + 1;
/// All of them.
const COPIED: u64 = SLOT + 4;

/// What a call that fails may leave.
const OUTCOMES: [Outcome; 3] = [Outcome::Old, Outcome::Lost, Outcome::New];

/// What the copy prints before this call of it fails.
fn printed_before(call: u64) -> &'static [u8] {
    if call < SECOND { b"" } else { b"copied 1 10\n" }
}

/// Whether the slot that this call writes is there once a call failed: it counts from the moment that its sector holds
/// it. Lost, that sector is found from the others, as it was.
fn is_there(slot: u64, call: u64, outcome: Outcome) -> bool {
    call > slot || (call == slot && outcome == Outcome::New)
}

/// What the copy prints that is then run again: it copies those that are not on the target.
fn printed_again(call: u64, outcome: Outcome) -> &'static [u8] {
    if is_there(SECOND + SLOT, call, outcome) {
        NEITHER
    } else if is_there(FIRST + SLOT, call, outcome) {
        b"copied 2 0\nvolumes 2\n"
    } else {
        BOTH
    }
}

/// Makes a copy of which this call fails, and then leaves this; and then the copy again. The first has to end by the
/// fault of the target's tape, and the second to leave both volumes on the target. The answer is the source's drive.
fn goes_on(
    rt: &impl Abort,
    alloc: Global,
    from: Unit<MemTape>,
    call: u64,
    outcome: Outcome,
) -> Unit<MemTape> {
    let mut to = target_before(rt, alloc, call, outcome);
    let (first, from) = copied(rt, alloc, from, &mut to, printed_before(call));
    let (second, from) = copied(rt, alloc, from, &mut to, printed_again(call, outcome));
    let fault = StoreFault::Tape;
    let wanted = [(CopyStatus::To { fault }, true), (CopyStatus::Done, true)];
    assert_eq!(rt; [first, second], wanted, "call {call}, {outcome:?}");
    prints(rt, alloc, &mut to, &["list"], LIST);
    prints(rt, alloc, &mut to, &["restore", "1"], BYTES);
    put_away(to);
    from
}

/// Lets this call fail with each outcome. The answer is the source's drive.
fn goes_on_from(
    rt: &impl Abort,
    alloc: Global,
    mut from: Unit<MemTape>,
    call: u64,
) -> Unit<MemTape> {
    for outcome in OUTCOMES {
        from = goes_on(rt, alloc, from, call, outcome);
    }
    from
}

#[test]
fn the_opening_fails(rt: HostRuntime) {
    let alloc = rt.alloc();
    let mut from = two_volumes(&rt, alloc);
    for call in [INSERTION, HEADER, TABLE] {
        from = goes_on_from(&rt, alloc, from, call);
    }
    put_away(from);
}

#[test]
fn each_step_of_a_volume_fails(rt: HostRuntime) {
    let alloc = rt.alloc();
    let steps = [AGAIN, VOLUME, BEHIND, SLOT, SLOT + 1, SLOT + 2, SLOT + 3];
    let mut from = two_volumes(&rt, alloc);
    for volume in [FIRST, SECOND] {
        for step in steps {
            from = goes_on_from(&rt, alloc, from, volume.saturating_add(step));
        }
    }
    put_away(from);
}

#[test]
fn a_copy_has_no_more_calls(rt: HostRuntime) {
    let alloc = rt.alloc();
    // The first call behind it is the insertion of the second copy.
    let mut to = target_before(&rt, alloc, CALLS, Outcome::Old);
    let from = two_volumes(&rt, alloc);
    let (first, from) = copied(&rt, alloc, from, &mut to, BOTH);
    let (second, from) = copied(&rt, alloc, from, &mut to, b"");
    let (third, from) = copied(&rt, alloc, from, &mut to, NEITHER);
    put_away(to);
    put_away(from);
    let fault = StoreFault::Tape;
    let done = (CopyStatus::Done, true);
    assert_eq!(rt;
        [first, second, third],
        [done, (CopyStatus::To { fault }, true), done]
    );
}
