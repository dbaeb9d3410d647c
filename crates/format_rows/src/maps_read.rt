//! Maps that are read. The masks are those of 84 segments.

use qic_base::NoMemory;
use qic_mem::MemSource;
use rescue_map::{MapError, read_map};
use std::alloc::Global;
use std::test::Fail;

/// What the text is read as, through a buffer of so many bytes: the number of sectors that were rescued, or the fault. The
/// read with this number fails.
fn reading(
    alloc: Global,
    text: &[u8],
    room: usize,
    fails: &[u64],
) -> Result<Result<u32, MapError>, NoMemory> {
    let mut source = MemSource::new(text.to_vec(alloc)?, fails.to_vec(alloc)?);
    let mut buffer = vec![in alloc; 0; room.max(1)]?;
    let mut mask = [7; 84];
    let answer = read_map(&mut source, &mut buffer, &mut mask);
    let mut sectors: u32 = 0;
    for word in &mask {
        sectors = sectors.saturating_add(word.count_ones());
    }
    Ok(match answer {
        Ok(()) => Ok(sectors),
        Err(error) => Err(error),
    })
}

/// The text is read as so many sectors, or as this fault, whatever the buffer's length.
fn reads_as(alloc: Global, text: &str, wanted: Result<u32, u32>) -> Result<bool, NoMemory> {
    let wanted = match wanted {
        Ok(sectors) => Ok(sectors),
        Err(line) => Err(MapError::Fault { line }),
    };
    for room in [1, 7, 512] {
        if reading(alloc, text.as_bytes(), room, &[])? != wanted {
            return Ok(false);
        }
    }
    Ok(true)
}

/// The first row that is not read as wanted.
fn first_wrong(
    alloc: Global,
    rows: &[(&str, Result<u32, u32>)],
) -> Result<Option<usize>, NoMemory> {
    for (at, (text, wanted)) in rows.iter().enumerate() {
        if !reads_as(alloc, text, *wanted)? {
            return Ok(Some(at));
        }
    }
    Ok(None)
}

const MAPS: [(&str, Result<u32, u32>); 12] = [
    // Two blocks meet inside sector 1.
    ("0 ?\n0 0x600 +\n0x600 0x200 +\n0x800 02000 -\n", Ok(2)),
    // The session's map: three sectors of segment 3 are lost.
    (
        "# Mapfile. Created by GNU ddrescue version 1.29\n\
         # Command line: ddrescue in out map\n\
         # current_pos  current_status  current_pass\n\
         0x00018C00     +               1\n\
         #      pos        size  status\n\
         0x00000000  0x00018000  +\n\
         0x00018000  0x00000C00  -\n\
         0x00018C00  0x00287400  +\n",
        Ok(2685),
    ),
    (
        "0 +\r\n\r\n# by hand\r\n  0\t1024 + # the first sector\r\n",
        Ok(1),
    ),
    ("0 G 2\n1024 2048 +\n", Ok(2)),
    (
        "0 F 1\n1 2047 +\n2048 1024 *\n3072 1024 /\n4096 010000 +\n",
        Ok(5),
    ),
    ("0 -", Ok(0)),
    ("0 -\n0 0X400 +", Ok(1)),
    ("0 -\n0 1023 +\n1023 1 ?\n", Ok(0)),
    ("0 -\n0 2752512 +\n", Ok(2688)),
    ("0 -\n0 0x7FFFFFFFFFFFFFFF +\n", Ok(2688)),
    ("0 ?\n0 0000000000000000000000000002000 +\n", Ok(1)),
    ("#x\n\n0x0 ? 1\n0 1500 -\n1500 2000 +\n3500 1000 +\n", Ok(2)),
];

const FAULTS: [(&str, Result<u32, u32>); 25] = [
    ("0x0 +\n0 1024 +\n2048 5 +\n", Err(3)),
    ("0x0 +\n0 1024 +\n1023 5 +\n", Err(3)),
    ("", Err(1)),
    ("# Mapfile\n \t \n# no status", Err(4)),
    ("0 0x600 +\n", Err(1)),
    ("0 ?\n0 ?\n", Err(2)),
    ("0 ? 1 1\n", Err(1)),
    ("0 ?\n0 5 + +\n", Err(2)),
    ("0 ? 0\n", Err(1)),
    ("0 ? 01\n", Err(1)),
    ("0 ? 0x1\n", Err(1)),
    ("0 ?\n0 5 F\n", Err(2)),
    ("0 ?\n0 0 +\n", Err(2)),
    ("0 ?\n0 5 +# x\n", Err(2)),
    ("0 ?#\n", Err(1)),
    ("0 ?\r", Err(1)),
    ("0 ?\r\r\n", Err(1)),
    ("08 ?\n", Err(1)),
    ("0x ?\n", Err(1)),
    ("-1 ?\n", Err(1)),
    ("5u ?\n", Err(1)),
    ("9223372036854775808 ?\n", Err(1)),
    ("0 ?\n0x7FFFFFFFFFFFFFFF 1 +\n", Err(2)),
    ("0 ?\n0 00000000000000000000000000002000 +\n", Err(2)),
    ("0 ?\n0 5\n", Err(2)),
];

#[test]
fn maps_are_read(rt: HostRuntime) -> Result<(), Fail> {
    assert_eq!(rt; first_wrong(rt.alloc(), &MAPS)?, None);
    Ok(())
}

#[test]
fn the_first_line_at_fault_is_told(rt: HostRuntime) -> Result<(), Fail> {
    assert_eq!(rt; first_wrong(rt.alloc(), &FAULTS)?, None);
    Ok(())
}

/// A status line, and newlines up to so many lines.
fn lines(alloc: Global, count: usize) -> Result<Vec<u8>, NoMemory> {
    let mut text = vec![in alloc; b'\n'; count]?;
    let status = b"0 ?\n";
    for byte in status.iter().rev() {
        text.insert(0, *byte)?;
    }
    Ok(text)
}

#[test]
fn a_map_has_1048576_lines_at_most(rt: HostRuntime) -> Result<(), Fail> {
    let most = lines(rt.alloc(), 1_048_575)?;
    let more = lines(rt.alloc(), 1_048_576)?;
    let seen = (
        reading(rt.alloc(), &most, 512, &[])?,
        reading(rt.alloc(), &more, 512, &[])?,
    );
    assert_eq!(rt; seen, (Ok(0), Err(MapError::Fault { line: 1_048_577 })));
    Ok(())
}

#[test]
fn a_read_that_fails_is_a_failure(rt: HostRuntime) -> Result<(), Fail> {
    let text = b"0 ?\n0 1024 +\n0 1 +\n";
    let seen = [
        reading(rt.alloc(), text, 8, &[0])?,
        reading(rt.alloc(), text, 8, &[1])?,
        reading(rt.alloc(), text, 8, &[3])?,
    ];
    assert_eq!(rt;
        seen,
        [
            Err(MapError::Source),
            Err(MapError::Source),
            Err(MapError::Fault { line: 3 }),
        ]
    );
    Ok(())
}
