//! Appends that a stop cut short among the writes of the volume table, and then one sector more of it lost.

use crate::appends::stops::{EIGHT, NINE, SLOT, cut_ninth, lists};
use crate::units::put_away;
use qic_mem::Outcome;
use std::alloc::Global;
use std::process::Abort;

/// The segment of the volume table.
const TABLE: u32 = 2;

/// The sector with the ninth slot. Those of parity are 29, 30 and 31.
const CHANGED: u32 = 1;

/// What `list` has to print, also a second time, where so many of the table's four writes were done, the next one was
/// torn or not, and then this sector was lost.
fn volumes_left(done: u32, torn: bool, lost: u32) -> &'static [u8] {
    match done {
        0 => EIGHT,
        // Without a sector of data the parity tells, and it is that of eight volumes still.
        1 if lost < 29 => EIGHT,
        // The new sector of data is not there: its parity is old in two sectors and new in one.
        2 if lost == CHANGED && !torn => EIGHT,
        _ => NINE,
    }
}

/// Whether `list` prints the volumes, also a second time, where this call of the ninth append fails and then this sector
/// of the table is lost.
fn survives(
    rt: &impl Abort,
    alloc: Global,
    call: u64,
    outcome: Outcome,
    lost: u32,
    volumes: &[u8],
) -> bool {
    let mut unit = cut_ninth(rt, alloc, call, outcome);
    assert_eq!(rt; unit.wear(TABLE, lost), Ok(Ok(())), "sector {lost}");
    let listed = lists(rt, alloc, &mut unit, volumes);
    put_away(unit);
    listed
}

/// Tries each sector of the table's segment as the one that is lost.
fn survives_each_loss(
    rt: &impl Abort,
    alloc: Global,
    call: u64,
    outcome: Outcome,
    done: u32,
    torn: bool,
) {
    for lost in 0..32 {
        let volumes = volumes_left(done, torn, lost);
        let listed = survives(rt, alloc, call, outcome, lost, volumes);
        assert!(rt; listed, "call {call}, {outcome:?}, sector {lost}");
    }
}

#[test]
fn one_sector_more_lost(rt: HostRuntime) {
    let rows = [
        (SLOT, Outcome::Old, 0, false),
        (SLOT, Outcome::Lost, 0, true),
        (SLOT, Outcome::New, 1, false),
        (SLOT + 1, Outcome::Lost, 1, true),
        (SLOT + 1, Outcome::New, 2, false),
        (SLOT + 2, Outcome::Lost, 2, true),
        (SLOT + 2, Outcome::New, 3, false),
        (SLOT + 3, Outcome::Lost, 3, true),
        (SLOT + 3, Outcome::New, 4, false),
    ];
    for (call, outcome, done, torn) in rows {
        survives_each_loss(&rt, rt.alloc(), call, outcome, done, torn);
    }
}
