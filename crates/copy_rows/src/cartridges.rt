//! Cartridges in drives over tapes in memory, of three segments per track.

use crate::runs::{NEVER, prints, takes};
use drive_states::Unit;
use qic_mem::{MemTape, Outcome};
use std::alloc::Global;
use std::process::Abort;

/// The calls of the tape in `new`: the renewal, and the insertion.
const NEW: u64 = 2;

/// The calls of the tape in a `defect`.
const DEFECT: u64 = 2;

/// The calls of the tape in a formatting: the insertion; the reference bursts; each of the 84 segments formatted; each
/// of them read; and 32 sectors of each copy written.
const FORMATTING: u64 = 2 + 84 + 84 + 64;

/// The defects of the target: each sector of segment 3 that takes data, so its first volume begins in segment 4.
const DEFECTS: [(&str, &[u8]); 29] = [
    ("0", b"defect 3 0\n"),
    ("1", b"defect 3 1\n"),
    ("2", b"defect 3 2\n"),
    ("3", b"defect 3 3\n"),
    ("4", b"defect 3 4\n"),
    ("5", b"defect 3 5\n"),
    ("6", b"defect 3 6\n"),
    ("7", b"defect 3 7\n"),
    ("8", b"defect 3 8\n"),
    ("9", b"defect 3 9\n"),
    ("10", b"defect 3 10\n"),
    ("11", b"defect 3 11\n"),
    ("12", b"defect 3 12\n"),
    ("13", b"defect 3 13\n"),
    ("14", b"defect 3 14\n"),
    ("15", b"defect 3 15\n"),
    ("16", b"defect 3 16\n"),
    ("17", b"defect 3 17\n"),
    ("18", b"defect 3 18\n"),
    ("19", b"defect 3 19\n"),
    ("20", b"defect 3 20\n"),
    ("21", b"defect 3 21\n"),
    ("22", b"defect 3 22\n"),
    ("23", b"defect 3 23\n"),
    ("24", b"defect 3 24\n"),
    ("25", b"defect 3 25\n"),
    ("26", b"defect 3 26\n"),
    ("27", b"defect 3 27\n"),
    ("28", b"defect 3 28\n"),
];

/// A drive with a cartridge that is not formatted, on a tape whose call with this number fails, and then leaves this.
fn blank(rt: &impl Abort, alloc: Global, call: u64, outcome: Outcome) -> Unit<MemTape> {
    let fails = [call].to_vec(alloc).expect(rt, "memory");
    let mut tape = MemTape::new(alloc, 3, fails).expect(rt, "memory");
    tape.set_outcome(outcome);
    let mut unit = Unit::new(tape);
    prints(rt, alloc, &mut unit, &["new", "3"], b"blank 3\n");
    unit
}

/// The same with a cartridge that is formatted, without a defect, on a tape whose call fails that comes so many calls
/// later.
pub fn formatted_before(
    rt: &impl Abort,
    alloc: Global,
    call: u64,
    outcome: Outcome,
) -> Unit<MemTape> {
    let mut unit = blank(rt, alloc, (NEW + FORMATTING).saturating_add(call), outcome);
    prints(rt, alloc, &mut unit, &["format", "L"], b"formatted 84 0\n");
    unit
}

/// The same on a tape that never fails.
pub fn formatted(rt: &impl Abort, alloc: Global) -> Unit<MemTape> {
    formatted_before(rt, alloc, NEVER, Outcome::Old)
}

/// The bytes of the first volume of the source.
pub const BYTES: &[u8] = b"0123456789";

/// A drive with the source: a volume `a` of ten bytes, and a volume `b` of none.
pub fn two_volumes(rt: &impl Abort, alloc: Global) -> Unit<MemTape> {
    let mut unit = formatted(rt, alloc);
    takes(
        rt,
        alloc,
        &mut unit,
        &["append", "a"],
        BYTES,
        b"appended 1 10 3 3\n",
    );
    prints(
        rt,
        alloc,
        &mut unit,
        &["append", "b"],
        b"appended 2 0 4 4\n",
    );
    unit
}

/// A drive with the target, on a tape whose call fails that comes so many calls later, and then leaves this. It is
/// formatted, without a volume, and has a defect in each sector of segment 3 that takes data.
pub fn target_before(rt: &impl Abort, alloc: Global, call: u64, outcome: Outcome) -> Unit<MemTape> {
    let made = NEW + 29 * DEFECT + FORMATTING;
    let mut unit = blank(rt, alloc, made.saturating_add(call), outcome);
    for (sector, line) in DEFECTS {
        prints(rt, alloc, &mut unit, &["defect", "3", sector], line);
    }
    prints(rt, alloc, &mut unit, &["format", "M"], b"formatted 84 29\n");
    unit
}

/// The same on a tape that never fails.
pub fn target(rt: &impl Abort, alloc: Global) -> Unit<MemTape> {
    target_before(rt, alloc, NEVER, Outcome::Old)
}

/// Takes a drive away, with its tape. The functions that hand their drives over here have none to drop, which keeps
/// their proofs short.
pub fn put_away(_unit: Unit<MemTape>) {}
