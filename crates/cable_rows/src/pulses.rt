//! Trains of a source sent to a drive, and the levels that they leave.

use crate::memory::{sink, source};
use drive_states::Unit;
use hand_commands::{PulseFault, run_pulses};
use qic_base::{Tape, TapeFailed};
use qic_mem::{MemSink, MemSource, MemTape};
use std::alloc::Global;
use std::test::Fail;

/// Puts in a cartridge of 3 segments per track that has its reference bursts.
fn put_in(tape: &mut MemTape) -> Result<(), TapeFailed> {
    tape.renew(3)?;
    tape.set_referenced()
}

/// A drive with such a cartridge.
fn with_cartridge(alloc: Global) -> Result<Unit<MemTape>, Fail> {
    let mut tape = MemTape::new(alloc, 3, Vec::new(alloc))?;
    put_in(&mut tape)?;
    Ok(Unit::new(tape))
}

/// How the trains of a source end, and whether the sink then has just these levels.
type Sent = (Result<(), PulseFault>, bool);

fn send(
    unit: &mut Unit<MemTape>,
    source: &mut MemSource,
    sink: &mut MemSink,
    levels: &[u8],
) -> Sent {
    let answer = run_pulses(unit, source, sink);
    (answer, sink.bytes() == levels)
}

/// The same into a sink whose write with this number fails.
fn into_sink(
    alloc: Global,
    unit: &mut Unit<MemTape>,
    source: &mut MemSource,
    write: u64,
    levels: &[u8],
) -> Result<Sent, Fail> {
    let mut sink = sink(alloc, &[write])?;
    Ok(send(unit, source, &mut sink, levels))
}

/// The same of these bytes, where the read with this number fails.
fn from_bytes(
    alloc: Global,
    unit: &mut Unit<MemTape>,
    input: &[u8],
    read: u64,
    write: u64,
    levels: &[u8],
) -> Result<Sent, Fail> {
    let mut source = source(alloc, input, &[read])?;
    into_sink(alloc, unit, &mut source, write, levels)
}

/// The same to a drive with such a cartridge.
fn sent(alloc: Global, input: &[u8], read: u64, write: u64, levels: &[u8]) -> Result<Sent, Fail> {
    let mut unit = with_cartridge(alloc)?;
    from_bytes(alloc, &mut unit, input, read, write, levels)
}

/// The number of no call.
const NEVER: u64 = u64::MAX;

#[test]
fn trains_leave_their_levels(rt: HostRuntime) -> Result<(), Fail> {
    let alloc = rt.alloc();
    // The status of a new cartridge: 0x75, the least bit first, between two ones.
    let status = b"6\n2\n2\n2\n2\n2\n2\n2\n2\n2\n";
    let levels = b"1\n1\n0\n1\n0\n1\n1\n1\n0\n1\n";
    let seen = [
        sent(alloc, status, NEVER, NEVER, levels)?,
        sent(alloc, b"", NEVER, NEVER, b"")?,
    ];
    assert_eq!(rt; seen, [(Ok(()), true); 2]);
    Ok(())
}

#[test]
fn a_line_or_a_call_that_fails_ends_the_trains(rt: HostRuntime) -> Result<(), Fail> {
    let alloc = rt.alloc();
    let seen = [
        sent(alloc, b"6\nx\n", NEVER, NEVER, b"1\n")?,
        sent(alloc, b"6\n2\n", 2, NEVER, b"1\n")?,
        sent(alloc, b"6\n2\n2\n", NEVER, 1, b"1\n")?,
    ];
    assert_eq!(rt;
        seen,
        [
            (Err(PulseFault::Script { line: 2, place: 2 }), true),
            (Err(PulseFault::Source), true),
            (Err(PulseFault::Sink), true),
        ]
    );
    Ok(())
}
