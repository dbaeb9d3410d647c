//! Sources and sinks in memory, of which chosen calls fail.

use qic_base::NoMemory;
use qic_mem::{MemSink, MemSource};
use std::alloc::{AllocError, Global};

/// A source of these bytes, whose reads with the numbers of `fails` fail.
pub fn source(alloc: Global, bytes: &[u8], fails: &[u64]) -> Result<MemSource, AllocError> {
    let bytes = bytes.to_vec(alloc)?;
    Ok(MemSource::new(bytes, fails.to_vec(alloc)?))
}

/// An empty sink that takes 2,048 bytes, whose writes with the numbers of `fails` fail.
pub fn sink(alloc: Global, fails: &[u64]) -> Result<MemSink, NoMemory> {
    MemSink::new(alloc, 2048, fails.to_vec(alloc)?)
}
