//! A volume of ten bytes over a source or a sink that fails.

use crate::runs::{prints, run_over};
use crate::streams::{NEVER, sink, source};
use crate::units::{formatted, put_away};
use drive_states::Unit;
use qic_mem::MemTape;
use std::alloc::Global;
use std::process::Abort;
use tape_cmd::Status;

/// The bytes of the volume.
const BYTES: &[u8] = b"0123456789";

/// What `list` prints where the volume stands.
const LIST: &[u8] = b"1 3 3 10 1970-01-01T00:00:00 a\nvolumes 1\n";

/// What the words answer to those bytes, over a source whose read with this number fails, and a sink whose write with
/// this number fails, and whether nothing was written.
fn broken(
    rt: &impl Abort,
    alloc: Global,
    unit: &mut Unit<MemTape>,
    text: &[&str],
    read: u64,
    write: u64,
) -> (Status, bool) {
    let mut source = source(rt, alloc, BYTES, read);
    let mut out = sink(rt, alloc, 64, write);
    let status = run_over(rt, alloc, text, unit, &mut source, &mut out);
    (status, out.bytes().is_empty())
}

#[test]
fn failing_source(rt: HostRuntime) {
    let alloc = rt.alloc();
    let mut unit = formatted(&rt, alloc);
    // Read 0 gives all bytes, and read 1 is that of the end.
    for read in [0, 1] {
        assert_eq!(rt;
            broken(&rt, alloc, &mut unit, &["append", "a"], read, NEVER),
            (Status::SourceFault, true),
            "read {read}"
        );
        prints(&rt, alloc, &mut unit, &["list"], b"volumes 0\n");
    }
    put_away(unit);
}

#[test]
fn failing_sink(rt: HostRuntime) {
    let alloc = rt.alloc();
    let mut unit = formatted(&rt, alloc);
    let rows: [(&[&str], &[&str], &[u8]); 2] = [
        // The line is printed once the volume stands.
        (&["append", "a"], &["list"], LIST),
        (&["restore", "1"], &["restore", "1"], BYTES),
    ];
    for (text, next, printed) in rows {
        assert_eq!(rt;
            broken(&rt, alloc, &mut unit, text, NEVER, 0),
            (Status::SinkFault, true),
            "the words {text:?}"
        );
        prints(&rt, alloc, &mut unit, next, printed);
    }
    put_away(unit);
}
