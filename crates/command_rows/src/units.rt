//! Drives over a tape in memory, with cartridges of three segments per track.

use crate::runs::prints;
use crate::streams::NEVER;
use drive_states::Unit;
use qic_mem::{MemTape, Outcome};
use std::alloc::Global;
use std::process::Abort;

/// What a call that fails may leave.
pub const OUTCOMES: [Outcome; 3] = [Outcome::Old, Outcome::Lost, Outcome::New];

/// The calls of the tape in `new`: the renewal, and the insertion.
pub const NEW: u64 = 2;

/// The calls of the tape in a formatting: the insertion; the reference bursts; each of the 84 segments formatted; each
/// of them read; and 32 sectors of each copy written.
pub const FORMATTING: u64 = 2 + 84 + 84 + 64;

/// A tape with no cartridge, whose call with this number fails, and leaves this outcome.
pub fn tape(rt: &impl Abort, alloc: Global, call: u64, outcome: Outcome) -> MemTape {
    let fails = [call].to_vec(alloc).expect(rt, "memory");
    let mut tape = MemTape::new(alloc, 3, fails).expect(rt, "memory");
    tape.set_outcome(outcome);
    tape
}

/// A drive with a cartridge that is not formatted, on a tape whose call fails that comes so many calls later, and then
/// leaves this.
pub fn blank_before(rt: &impl Abort, alloc: Global, call: u64, outcome: Outcome) -> Unit<MemTape> {
    let mut unit = Unit::new(tape(rt, alloc, NEW.saturating_add(call), outcome));
    prints(rt, alloc, &mut unit, &["new", "3"], b"blank 3\n");
    unit
}

/// The same with a cartridge that is formatted, with the label `L`.
pub fn formatted_before(
    rt: &impl Abort,
    alloc: Global,
    call: u64,
    outcome: Outcome,
) -> Unit<MemTape> {
    let mut unit = blank_before(rt, alloc, FORMATTING.saturating_add(call), outcome);
    prints(rt, alloc, &mut unit, &["format", "L"], b"formatted 84 0\n");
    unit
}

/// The same on a tape that never fails.
pub fn formatted(rt: &impl Abort, alloc: Global) -> Unit<MemTape> {
    formatted_before(rt, alloc, NEVER, Outcome::Old)
}

/// Takes a drive away, with its tape. The functions that hand their drive over here have none to drop, which keeps
/// their proofs short.
pub fn put_away(_unit: Unit<MemTape>) {}
