//! Sectors filled from sources in memory, whose bytes are 1. Each sector holds the byte 7 before.

ghost use Rattle.std.specs.Prelude.{◌≤◌};

use crate::streams::source;
use qic_base::{Sector, Source, SourceFailed};
use qic_mem::MemSource;
use sector_fill::fill_sectors;
use std::alloc::Global;
use std::test::Fail;

type Filled = (
    Result<u32, SourceFailed>,
    [Sector; 3],
    [Result<usize, SourceFailed>; 2],
);

/// What a filling of the first `count` of three sectors answers and leaves, and the answers to two reads of the source
/// behind it.
fn fill(source: &mut MemSource, count: u8, most: u32) -> Filled
    requires { count ≤ 3 }
{
    let mut sectors = [[7; 1024]; 3];
    let mut into = [0; 1024];
    let filled = fill_sectors(source, &mut sectors, count, most);
    let rest = [source.read(&mut into), source.read(&mut into)];
    (filled, sectors, rest)
}

/// The same of a source of so many bytes, at most 2,048. `fails` has the numbers of its reads that fail.
fn filled(alloc: Global, bytes: usize, fails: &[u64], count: u8, most: u32) -> Result<Filled, Fail>
    requires { count ≤ 3 }
{
    let mut source = source(alloc, &[1; 2048][..bytes.min(2048)], fails)?;
    Ok(fill(&mut source, count, most))
}

const NOTHING: [Result<usize, SourceFailed>; 2] = [Ok(0), Ok(0)];

#[test]
fn an_empty_source_leaves_zero_bytes(rt: HostRuntime) -> Result<(), Fail> {
    let seen = filled(rt.alloc(), 0, &[], 2, 5000)?;
    let sectors = [[0; 1024], [0; 1024], [7; 1024]];
    assert!(rt; seen == (Ok(0), sectors, NOTHING));
    Ok(())
}

#[test]
fn one_byte_stands_in_the_second_sector(rt: HostRuntime) -> Result<(), Fail> {
    let seen = filled(rt.alloc(), 1025, &[], 2, 5000)?;
    let mut second = [0; 1024];
    second[0] = 1;
    assert!(rt; seen == (Ok(1025), [[1; 1024], second, [7; 1024]], NOTHING));
    Ok(())
}

#[test]
fn what_was_not_asked_for_stays_in_the_source(rt: HostRuntime) -> Result<(), Fail> {
    let seen = filled(rt.alloc(), 1500, &[], 3, 1024)?;
    let sectors = [[1; 1024], [0; 1024], [0; 1024]];
    assert!(rt; seen == (Ok(1024), sectors, [Ok(476), Ok(0)]));
    Ok(())
}

#[test]
fn one_read_fills_two_sectors(rt: HostRuntime) -> Result<(), Fail> {
    // The second read, which fails, is that of the test.
    let seen = filled(rt.alloc(), 2048, &[1], 2, 5000)?;
    let sectors = [[1; 1024], [1; 1024], [7; 1024]];
    assert!(rt; seen == (Ok(2048), sectors, [Err(SourceFailed), Ok(0)]));
    Ok(())
}

#[test]
fn one_read_takes_what_was_asked_for(rt: HostRuntime) -> Result<(), Fail> {
    // The second read, which fails, is that of the test.
    let (answer, _, rest) = filled(rt.alloc(), 2048, &[1], 3, 2000)?;
    assert_eq!(rt; (answer, rest), (Ok(2000), [Err(SourceFailed), Ok(48)]));
    Ok(())
}

#[test]
fn a_read_that_fails_is_a_failure(rt: HostRuntime) -> Result<(), Fail> {
    let (answer, [_, _, third], rest) = filled(rt.alloc(), 1500, &[1], 2, 5000)?;
    // What the first read gave is taken.
    assert!(rt; (answer, third, rest) == (Err(SourceFailed), [7; 1024], NOTHING));
    Ok(())
}
