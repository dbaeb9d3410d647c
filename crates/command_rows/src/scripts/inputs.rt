//! Inputs that end early, or never.

use crate::runs::run_over;
use crate::scripts::runs::{Ending, broken, ending, volumes};
use crate::streams::{NEVER, ROOM, sink};
use crate::units::{formatted, put_away};
use drive_states::Unit;
use qic_base::{Source, SourceFailed};
use qic_mem::MemTape;
use std::alloc::Global;
use std::process::Abort;
use tape_cmd::Status;

/// A source that gives one byte a read, without end.
#[derive(Drop)]
struct Endless;

impl Source for Endless {
    ghost use Rattle.command_rows.specs.Endless.{endless_means};

    ghost means = { endless_means };

    ghost keeps_itself = { λ s. tt };

    ghost keeps_on = { λ a b c first next. tt };

    fn read(&mut self, into: &mut [u8]) -> Result<usize, SourceFailed> {
        into[0] = b'x';
        Ok(1)
    }
}

/// An append of ten bytes, of which there are nine.
const SHORT: &[u8] = b"append x 10\n012345678";

/// What a script has to end with whose first line has no end.
const NO_LINE: Ending = (Status::ScriptFault { line: 1, place: 0 }, Some(0), Some(0));

#[test]
fn an_append_whose_bytes_end_early(rt: HostRuntime) {
    let alloc = rt.alloc();
    let mut unit = formatted(&rt, alloc);
    let ending = broken(&rt, alloc, &mut unit, SHORT, NEVER, ROOM, NEVER);
    put_away(unit);
    assert_eq!(rt; ending, NO_LINE);
}

#[test]
fn a_script_without_an_end(rt: HostRuntime) {
    let alloc = rt.alloc();
    let mut unit = formatted(&rt, alloc);
    let mut out = sink(&rt, alloc, ROOM, NEVER);
    let ending = ending(&rt, alloc, &mut unit, &mut Endless, &mut out);
    put_away(unit);
    assert_eq!(rt; ending, NO_LINE);
}

/// What `append x` answers to the endless source, whether it printed nothing, and how many volumes are there then.
fn appended(
    rt: &impl Abort,
    alloc: Global,
    unit: &mut Unit<MemTape>,
) -> (Status, bool, Option<u32>) {
    let mut out = sink(rt, alloc, ROOM, NEVER);
    let status = run_over(rt, alloc, &["append", "x"], unit, &mut Endless, &mut out);
    (status, out.bytes().is_empty(), volumes(rt, alloc, unit))
}

#[test]
fn an_append_without_an_end(rt: HostRuntime) {
    let alloc = rt.alloc();
    let mut unit = formatted(&rt, alloc);
    // The 81 segments behind the table carry 29,696 bytes each.
    let full = Status::Full {
        need: 2_405_377,
        have: 2_405_376,
    };
    let appended = appended(&rt, alloc, &mut unit);
    put_away(unit);
    assert_eq!(rt; appended, (full, true, Some(0)));
}
