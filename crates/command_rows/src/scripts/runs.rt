//! The worked script over a drive, and what it prints. These functions have no clause, so the proof of a test knows nothing
//! of a drive but that it is one.

use crate::runs::{run_over, run_words};
use crate::streams::{NEVER, ROOM, sink, source};
use drive_states::Unit;
use qic_base::Source;
use qic_mem::{MemSink, MemTape};
use std::alloc::Global;
use std::process::Abort;
use tape_cmd::Status;

/// Appends a volume of three bytes, lists it, and gives it back.
pub const SCRIPT: &[u8] = b"append a 3\nabclist\nrestore 1\nend\n";

/// What the script prints.
pub const PRINTED: &[u8] = b"appended 1 3 3 3
1 3 3 3 1970-01-01T00:00:00 a
volumes 1
part 3
abcrestored 1 3
end
";

// How many bytes are printed behind each of the script's seven writes.

/// The reply of the append.
pub const APPENDED: usize = 17;
/// The line of the volume.
pub const LINE: usize = APPENDED + 30;
/// The number of volumes.
pub const LISTED: usize = LINE + 10;
/// The line in front of the volume's bytes.
pub const PART: usize = LISTED + 7;
/// The volume's bytes.
pub const BYTES: usize = PART + 3;
/// The line behind them.
pub const RESTORED: usize = BYTES + 13;
/// The last reply.
pub const WHOLE: usize = RESTORED + 4;

/// What `list` prints of no volume.
const NONE: &[u8] = b"volumes 0\n";

/// What `list` prints of the volume.
const LIST: &[u8] = b"1 3 3 3 1970-01-01T00:00:00 a\nvolumes 1\n";

/// How a script ended: the status; how many bytes it printed, and none where they are no front of the text; and how
/// many volumes `list` then shows, none or that of the script, and nothing where it prints anything else.
pub type Ending = (Status, Option<usize>, Option<u32>);

/// How many volumes `list` shows.
pub fn volumes(rt: &impl Abort, alloc: Global, unit: &mut Unit<MemTape>) -> Option<u32> {
    let mut out = sink(rt, alloc, ROOM, NEVER);
    match run_words(rt, alloc, &["list"], unit, &mut out) {
        Status::Done if out.bytes() == NONE => Some(0),
        Status::Done if out.bytes() == LIST => Some(1),
        _ => None,
    }
}

/// How the script of a source ends over a sink.
pub fn ending<S: Source>(
    rt: &impl Abort,
    alloc: Global,
    unit: &mut Unit<MemTape>,
    source: &mut S,
    sink: &mut MemSink,
) -> Ending {
    let status = run_over(rt, alloc, &["script"], unit, source, sink);
    let printed = sink.bytes();
    let front = PRINTED.starts_with(printed).then_some(printed.len());
    (status, front, volumes(rt, alloc, unit))
}

/// How the script of these bytes ends where the source's read with this number fails, or the write with this number of
/// a sink with this room.
pub fn broken(
    rt: &impl Abort,
    alloc: Global,
    unit: &mut Unit<MemTape>,
    script: &[u8],
    read: u64,
    room: usize,
    write: u64,
) -> Ending {
    let mut source = source(rt, alloc, script, read);
    let mut out = sink(rt, alloc, room, write);
    ending(rt, alloc, unit, &mut source, &mut out)
}
