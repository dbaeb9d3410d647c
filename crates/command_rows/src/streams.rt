//! Sources and sinks in memory.

use qic_mem::{MemSink, MemSource};
use std::alloc::Global;
use std::process::Abort;

/// The number of no call.
pub const NEVER: u64 = u64::MAX;

/// Room for more than a command prints here.
pub const ROOM: usize = 4096;

/// A source of these bytes, whose read with this number fails.
pub fn source(rt: &impl Abort, alloc: Global, bytes: &[u8], read: u64) -> MemSource {
    let bytes = bytes.to_vec(alloc).expect(rt, "memory");
    let fails = [read].to_vec(alloc).expect(rt, "memory");
    MemSource::new(bytes, fails)
}

/// An empty sink that takes so many bytes, whose write with this number fails.
pub fn sink(rt: &impl Abort, alloc: Global, room: usize, write: u64) -> MemSink {
    let fails = [write].to_vec(alloc).expect(rt, "memory");
    MemSink::new(alloc, room, fails).expect(rt, "memory")
}
