//! Sectors written to sinks in memory. The first sector holds the byte 1, the second the byte 2.

use qic_base::{NoMemory, Sink, SinkFailed};
use qic_mem::MemSink;
use std::alloc::Global;
use std::test::Fail;
use volume_output::write_bytes;

/// A sink with room for so many bytes. `fails` has the numbers of its writes that fail.
fn sink(alloc: Global, room: usize, fails: &[u64]) -> Result<MemSink, NoMemory> {
    MemSink::new(alloc, room, fails.to_vec(alloc)?)
}

#[test]
fn no_byte_is_no_call(rt: HostRuntime) -> Result<(), Fail> {
    let mut sink = sink(rt.alloc(), 1, &[0])?;
    let answers = [
        write_bytes(&[[1; 1024]], 0, &mut sink),
        write_bytes(&[], 0, &mut sink),
    ];
    // The first call that the sink counts is this one.
    let counted = [sink.write(&[7]), sink.write(&[7])];
    assert_eq!(rt; (answers, counted), ([Ok(()); 2], [Err(SinkFailed), Ok(1)]));
    Ok(())
}

#[test]
fn one_byte_of_the_second_sector(rt: HostRuntime) -> Result<(), Fail> {
    let mut sink = sink(rt.alloc(), 2048, &[])?;
    let answer = write_bytes(&[[1; 1024], [2; 1024]], 1025, &mut sink);
    let mut bytes = [1; 1025];
    bytes[1024] = 2;
    assert!(rt; (answer, sink.bytes()) == (Ok(()), bytes.as_slice()));
    Ok(())
}

#[test]
fn a_write_that_fails_is_a_failure(rt: HostRuntime) -> Result<(), Fail> {
    // The sink has room for one sector, so that the second write fails.
    let mut sink = sink(rt.alloc(), 1024, &[])?;
    let answer = write_bytes(&[[1; 1024], [2; 1024]], 1025, &mut sink);
    assert!(rt; (answer, sink.bytes()) == (Err(SinkFailed), [1; 1024].as_slice()));
    Ok(())
}
