//! Sources and sinks in memory.

use qic_base::{NoMemory, Sink, SinkFailed, Source, SourceFailed};
use qic_mem::{MemSink, MemSource, SureSink, SureSource};
use std::alloc::Global;
use std::test::Fail;

/// A source of these bytes. `fails` has the numbers of its reads that fail.
pub fn source(alloc: Global, bytes: &[u8], fails: &[u64]) -> Result<MemSource, NoMemory> {
    Ok(MemSource::new(bytes.to_vec(alloc)?, fails.to_vec(alloc)?))
}

/// A sink with room for so many bytes. `fails` has the numbers of its writes that fail.
pub fn sink(alloc: Global, room: usize, fails: &[u64]) -> Result<MemSink, NoMemory> {
    MemSink::new(alloc, room, fails.to_vec(alloc)?)
}

#[test]
fn a_source_gives_its_bytes_around_a_failing_read(rt: HostRuntime) -> Result<(), Fail> {
    let mut source = source(rt.alloc(), b"hello", &[1])?;
    let mut into = [0; 3];
    let seen = [
        (source.read(&mut into), into),
        (source.read(&mut into), into),
        (source.read(&mut into), into),
        (source.read(&mut into), into),
    ];
    assert_eq!(rt;
        seen,
        [
            (Ok(3), *b"hel"),
            (Err(SourceFailed), *b"hel"),
            (Ok(2), *b"lol"),
            (Ok(0), *b"lol"),
        ]
    );
    Ok(())
}

#[test]
fn a_sink_takes_what_fits_around_a_failing_write(rt: HostRuntime) -> Result<(), Fail> {
    let mut sink = sink(rt.alloc(), 6, &[1])?;
    let seen = (
        sink.write(b"one "),
        sink.write(b"two"),
        sink.bytes() == b"one ".as_slice(),
        sink.write(b"two"),
        sink.write(b"o"),
        sink.bytes() == b"one tw".as_slice(),
    );
    assert_eq!(rt;
        seen,
        (Ok(4), Err(SinkFailed), true, Ok(2), Err(SinkFailed), true)
    );
    Ok(())
}

#[test]
fn what_never_fails_goes_on(rt: HostRuntime) -> Result<(), Fail> {
    let mut source = SureSource::new(b"hello".to_vec(rt.alloc())?);
    let mut into = [0; 3];
    let seen = (source.read(&mut into), into, SureSink::new().write(&into));
    assert_eq!(rt; seen, (Ok(3), *b"hel", Ok(3)));
    Ok(())
}
