//! The worked script over a source or a sink that fails.

use crate::scripts::runs::{
    APPENDED, BYTES, Ending, LINE, LISTED, PART, RESTORED, SCRIPT, WHOLE, broken,
};
use crate::streams::{NEVER, ROOM};
use crate::units::{formatted, put_away};
use std::alloc::Global;
use std::process::Abort;
use tape_cmd::Status;

/// The worked script over a formatted cartridge has to end so where this read of the source fails, or this write of a
/// sink with this room.
fn ends(rt: &impl Abort, alloc: Global, read: u64, room: usize, write: u64, want: Ending) {
    let mut unit = formatted(rt, alloc);
    assert_eq!(rt;
        broken(rt, alloc, &mut unit, SCRIPT, read, room, write),
        want,
        "read {read}, room {room}, write {write}"
    );
    put_away(unit);
}

/// The end where nothing fails.
const DONE: Ending = (Status::Done, Some(WHOLE), Some(1));

/// How many bytes are printed before this read, and how many volumes are there. A line is read byte by byte, and the
/// three bytes of the volume are one read.
fn before(read: u64) -> (usize, u32) {
    match read {
        0..=11 => (0, 0),
        12..=16 => (APPENDED, 1),
        17..=26 => (LISTED, 1),
        _ => (RESTORED, 1),
    }
}

#[test]
fn each_read_of_the_source(rt: HostRuntime) {
    let alloc = rt.alloc();
    for read in 0..31 {
        let (printed, volumes) = before(read);
        let want = (Status::SourceFault, Some(printed), Some(volumes));
        ends(&rt, alloc, read, ROOM, NEVER, want);
    }
    // Behind the line `end` nothing is read.
    ends(&rt, alloc, 31, ROOM, NEVER, DONE);
}

/// How the script ends where the sink took so many bytes. The volume stands before the first write.
fn cut(taken: usize) -> Ending {
    (Status::SinkFault, Some(taken), Some(1))
}

#[test]
fn each_write_of_the_sink(rt: HostRuntime) {
    let alloc = rt.alloc();
    let rows = [
        (0, cut(0)),
        (1, cut(APPENDED)),
        (2, cut(LINE)),
        (3, cut(LISTED)),
        (4, cut(PART)),
        (5, cut(BYTES)),
        (6, cut(RESTORED)),
        (7, DONE),
    ];
    for (write, want) in rows {
        ends(&rt, alloc, NEVER, ROOM, write, want);
    }
}

#[test]
fn a_full_sink_took_the_front(rt: HostRuntime) {
    let alloc = rt.alloc();
    for room in 0..WHOLE {
        ends(&rt, alloc, NEVER, room, NEVER, cut(room));
    }
    ends(&rt, alloc, NEVER, WHOLE, NEVER, DONE);
}
