//! Maps that are written.

use qic_base::{NoMemory, SinkFailed};
use qic_mem::{MemSink, MemSource};
use rescue_map::{read_map, write_map};
use std::alloc::Global;
use std::test::Fail;

const SESSION: &str = "\
# Mapfile. Created by tape_export
# current_pos  current_status  current_pass
0x00000000     +               1
#      pos        size  status
0x00000000  0x00018000  +
0x00018000  0x00000C00  -
0x00018C00  0x00287400  +
";

/// Of 84 segments the sectors 0, 1 and 2 of segment 3 are lost.
fn session() -> [u32; 84] {
    let mut mask = [0xFFFF_FFFF; 84];
    mask[3] = 0xFFFF_FFF8;
    mask
}

fn sink(alloc: Global, room: usize) -> Result<MemSink, NoMemory> {
    MemSink::new(alloc, room, vec![in alloc]?)
}

#[test]
fn the_map_of_the_session(rt: HostRuntime) -> Result<(), Fail> {
    let mut sink = sink(rt.alloc(), 1000)?;
    let answer = write_map(&session(), &mut sink);
    assert!(rt; (answer, sink.bytes()) == (Ok(()), SESSION.as_bytes()));
    Ok(())
}

#[test]
fn a_map_that_is_written_reads_back(rt: HostRuntime) -> Result<(), Fail> {
    let mask = [0, 0x8000_0001, 0xAAAA_AAAA, 0xFFFF_FFFF, 0x0001_0000];
    let mut sink = sink(rt.alloc(), 2000)?;
    let written = write_map(&mask, &mut sink);
    let mut source = MemSource::new(sink.bytes().to_vec(rt.alloc())?, vec![in rt.alloc()]?);
    let mut again = [7; 5];
    let read = read_map(&mut source, &mut [0; 64], &mut again);
    assert_eq!(rt; (written, read, again), (Ok(()), Ok(()), mask));
    Ok(())
}

#[test]
fn a_map_of_no_segment_has_no_block(rt: HostRuntime) -> Result<(), Fail> {
    let mut sink = sink(rt.alloc(), 200)?;
    let answer = write_map(&[], &mut sink);
    assert!(rt; (answer, sink.bytes().len()) == (Ok(()), 142));
    Ok(())
}

#[test]
fn a_write_that_fails_leaves_a_front(rt: HostRuntime) -> Result<(), Fail> {
    let mut sink = sink(rt.alloc(), 150)?;
    let answer = write_map(&session(), &mut sink);
    assert!(rt; (answer, sink.bytes()) == (Err(SinkFailed), &SESSION.as_bytes()[..150]));
    Ok(())
}
