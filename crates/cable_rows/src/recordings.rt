//! Recordings and their dialogue, read off the tables of docs/TRACE.md by hand.

use crate::memory::{sink, source};
use pulse_dialogue::{TraceFault, tell_recording};
use qic_mem::{MemSink, MemSource};
use std::alloc::Global;
use std::test::Fail;

/// A gap, a recording, its dialogue, and the line at fault with its place.
type Recording = (u32, &'static str, &'static str, Option<(u32, u64)>);

const RECORDINGS: [Recording; 12] = [
    (
        1000,
        "0\n100\n200\n5000\n5100\n",
        "0 3 Pause\n5000 2 ReportNextBit\n",
        None,
    ),
    (50, "0\n100\n", "0 1 Reset\n100 1 Reset\n", None),
    (
        100,
        "0\n100\n201\n",
        "0 2 ReportNextBit\n201 1 Reset\n",
        None,
    ),
    (1000, "0\nx\n", "", Some((2, 2))),
    (1000, "0\n5000\n4999\n", "0 1 Reset\n", Some((3, 7))),
    (1000, "07\n", "", Some((1, 0))),
    (1000, "7", "", Some((1, 0))),
    (1000, "7 2\n", "", Some((1, 0))),
    (1000, "", "", None),
    (1000, "5 1\n", "", None),
    (
        9,
        "0\n1\n2\n3\n4\n5\n6 0\n7\n8\n",
        "0 6 ReportStatus\n6 not acknowledged\n7 2 ReportNextBit\n",
        None,
    ),
    (
        9,
        "0\n1\n2\n3\n4\n5\n6 1\n20\n21\n22\n40\n41\n42\n",
        "0 6 ReportStatus\n20 3 refused in report\n40 3 Pause\n",
        None,
    ),
];

/// The number of no call.
const NEVER: u64 = u64::MAX;

/// How the telling of a recording ends, and whether the sink then has just this text.
type Told = (Result<(), TraceFault>, bool);

fn tell(gap: u32, source: &mut MemSource, sink: &mut MemSink, output: &str) -> Told {
    let answer = tell_recording(gap, source, sink);
    (answer, sink.bytes() == output.as_bytes())
}

/// The same into a sink whose write with this number fails.
fn into_sink(
    alloc: Global,
    gap: u32,
    source: &mut MemSource,
    write: u64,
    output: &str,
) -> Result<Told, Fail> {
    let mut sink = sink(alloc, &[write])?;
    Ok(tell(gap, source, &mut sink, output))
}

/// The same of these bytes, where the read with this number fails.
fn told(
    alloc: Global,
    gap: u32,
    input: &str,
    read: u64,
    write: u64,
    output: &str,
) -> Result<Told, Fail> {
    let mut source = source(alloc, input.as_bytes(), &[read])?;
    into_sink(alloc, gap, &mut source, write, output)
}

/// Whether the telling of a recording of which no call fails ends without a fault, and the sink then has just this text.
pub fn is_told(alloc: Global, gap: u32, input: &str, output: &str) -> Result<bool, Fail> {
    Ok(told(alloc, gap, input, NEVER, NEVER, output)? == (Ok(()), true))
}

/// The index of the first recording that ends in another way or has another dialogue.
fn first_that_is_other(alloc: Global, rows: &[Recording]) -> Result<Option<usize>, Fail> {
    for i in 0..rows.len() {
        let (gap, input, output, fault) = rows[i];
        let answer = match fault {
            Some((line, place)) => Err(TraceFault::Line { line, place }),
            None => Ok(()),
        };
        if told(alloc, gap, input, NEVER, NEVER, output)? != (answer, true) {
            return Ok(Some(i));
        }
    }
    Ok(None)
}

#[test]
fn recordings_have_their_dialogue(rt: HostRuntime) -> Result<(), Fail> {
    assert_eq!(rt; first_that_is_other(rt.alloc(), &RECORDINGS)?, None);
    Ok(())
}

#[test]
fn a_call_that_fails_leaves_a_front(rt: HostRuntime) -> Result<(), Fail> {
    let seen = [
        told(rt.alloc(), 10, "0\n50\n99\n", 7, NEVER, "0 1 Reset\n")?,
        told(rt.alloc(), 10, "0\n50\n99\n", NEVER, 1, "0 1 Reset\n")?,
    ];
    assert_eq!(rt;
        seen,
        [
            (Err(TraceFault::Source), true),
            (Err(TraceFault::Sink), true)
        ]
    );
    Ok(())
}
