//! `pulses` over a source, a sink or a tape that fails in mid-stream.

use crate::runs::run_over;
use crate::streams::{NEVER, ROOM, sink, source};
use crate::units::{formatted, put_away, tape};
use drive_states::Unit;
use qic_base::{Source, Tape};
use qic_mem::{MemSink, MemSource, MemTape, Outcome};
use std::alloc::Global;
use std::process::Abort;
use tape_cmd::Status;

/// What `pulses` answers to the bytes of a source, and whether the sink then has just this text.
fn prints(
    rt: &impl Abort,
    alloc: Global,
    unit: &mut Unit<MemTape>,
    source: &mut MemSource,
    sink: &mut MemSink,
    text: &str,
) -> (Status, bool) {
    let status = run_over(rt, alloc, &["pulses"], unit, source, sink);
    (status, sink.bytes() == text.as_bytes())
}

/// How many bytes the source has left, of at most 256; none where they are no end of this text.
fn left_of(rt: &impl Abort, source: &mut MemSource, text: &str) -> Option<usize> {
    let mut into = [0; 256];
    let left = source.read(&mut into).expect(rt, "the bytes left");
    text.as_bytes().ends_with(&into[..left]).then_some(left)
}

/// What `pulses` answers to an input over a sink of so much room whose write with this number fails, whether the sink
/// then has just this text, and how many bytes of the input are left, of at most 256; none where they are no end of it.
fn into_sink(
    rt: &impl Abort,
    alloc: Global,
    unit: &mut Unit<MemTape>,
    input: &str,
    room: usize,
    write: u64,
    text: &str,
) -> (Status, bool, Option<usize>) {
    let mut source = source(rt, alloc, input.as_bytes(), NEVER);
    let mut out = sink(rt, alloc, room, write);
    let (status, is_printed) = prints(rt, alloc, unit, &mut source, &mut out, text);
    (status, is_printed, left_of(rt, &mut source, input))
}

/// Trains that ask for the status, and one level more.
const STATUS: &str = "6\n2\n2\n2\n2\n2\n2\n2\n2\n2\n";

/// The status 0x55 of a new cartridge, which has no reference bursts, between two levels 1.
const UNREFERENCED: &str = "1\n1\n0\n1\n0\n1\n0\n1\n0\n1\n";

/// A drive over a tape with a new cartridge. The tape's call with this number fails; call 0 made the cartridge.
fn blank(rt: &impl Abort, alloc: Global, call: u64) -> Unit<MemTape> {
    let mut tape = tape(rt, alloc, call, Outcome::Old);
    tape.renew(3).expect(rt, "a new cartridge");
    Unit::new(tape)
}

/// What `pulses` answers to the lines `6`, `2` and `2` where the read with this number fails, and what to the bytes
/// that are left then, and whether the first prints just `text`, and both together `whole`.
fn with_broken_source(
    rt: &impl Abort,
    alloc: Global,
    unit: &mut Unit<MemTape>,
    read: u64,
    text: &str,
    whole: &str,
) -> (Status, Status, bool) {
    let mut source = source(rt, alloc, b"6\n2\n2\n", read);
    let mut out = sink(rt, alloc, ROOM, NEVER);
    let (broken, first) = prints(rt, alloc, unit, &mut source, &mut out, text);
    let (next, both) = prints(rt, alloc, unit, &mut source, &mut out, whole);
    (broken, next, first && both)
}

#[test]
fn a_read_that_fails_leaves_the_levels_before(rt: HostRuntime) {
    let alloc = rt.alloc();
    let mut unit = formatted(&rt, alloc);
    // A line is read byte by byte, and read 6 is that of the end. A number whose newline could not be read is gone, so the
    // next run finds an empty line. Where it finds a `2`, the report is over, since the cartridge is put in again.
    let empty_line = Status::ScriptFault { line: 1, place: 0 };
    let table = [
        (0, "", Status::Done, "1\n1\n0\n"),
        (1, "", empty_line, ""),
        (2, "1\n", Status::Done, "1\n0\n0\n"),
        (3, "1\n", empty_line, "1\n"),
        (4, "1\n1\n", Status::Done, "1\n1\n0\n"),
        (5, "1\n1\n", empty_line, "1\n1\n"),
        (6, "1\n1\n0\n", Status::Done, "1\n1\n0\n"),
    ];
    for (read, text, next, whole) in table {
        assert_eq!(rt;
            with_broken_source(&rt, alloc, &mut unit, read, text, whole),
            (Status::SourceFault, next, true),
            "read {read}"
        );
    }
    put_away(unit);
}

#[test]
fn a_write_that_fails_leaves_a_front_of_the_levels(rt: HostRuntime) {
    let alloc = rt.alloc();
    let mut unit = formatted(&rt, alloc);
    // The lines behind the one whose level failed are left. The last sink is full before its write 9.
    let table = [(64, 0, "", 4), (64, 1, "1\n", 2), (3, 9, "1\n1", 2)];
    for (room, write, text, left) in table {
        assert_eq!(rt;
            into_sink(&rt, alloc, &mut unit, "6\n2\n2\n", room, write, text),
            (Status::SinkFault, true, Some(left)),
            "{text:?}"
        );
    }
    put_away(unit);
}

#[test]
fn a_tape_that_fails_at_first_has_no_train_read(rt: HostRuntime) {
    let alloc = rt.alloc();
    let mut unit = blank(&rt, alloc, 1);
    let seen = [
        // No level is written, so no write of the sink fails.
        into_sink(&rt, alloc, &mut unit, STATUS, 64, 0, ""),
        // The cartridge is as it was.
        into_sink(&rt, alloc, &mut unit, STATUS, ROOM, NEVER, UNREFERENCED),
    ];
    put_away(unit);
    assert_eq!(rt;
        seen,
        [
            (Status::TapeFault, true, Some(STATUS.len())),
            (Status::Done, true, Some(0))
        ]
    );
}
