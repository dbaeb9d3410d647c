//! Lists of missing segments and of bad sectors that are read, of `dump_lists`. The masks are of four words.

use dump_lists::{ListError, read_bad, read_missing};
use qic_base::NoMemory;
use qic_mem::MemSource;
use std::alloc::Global;
use std::test::Fail;

/// The lists.
#[derive(Clone, Copy)]
enum Kind {
    Missing,
    Bad,
}

/// A text, and the words or the line at fault that it is read as.
type Row = (&'static str, Result<[u32; 4], u32>);

/// What the text is read as, through a buffer of so many bytes. The read with this number fails.
fn reading(
    alloc: Global,
    list: Kind,
    text: &[u8],
    room: usize,
    fails: &[u64],
) -> Result<Result<[u32; 4], ListError>, NoMemory> {
    let mut source = MemSource::new(text.to_vec(alloc)?, fails.to_vec(alloc)?);
    let mut buffer = vec![in alloc; 0; room.max(1)]?;
    let mut words = [7; 4];
    let answer = match list {
        Kind::Missing => read_missing(&mut source, &mut buffer, &mut words),
        Kind::Bad => read_bad(&mut source, &mut buffer, &mut words),
    };
    Ok(match answer {
        Ok(()) => Ok(words),
        Err(error) => Err(error),
    })
}

/// The text is read as these words, or as this fault, whatever the buffer's length.
fn reads_as(alloc: Global, list: Kind, row: &Row) -> Result<bool, NoMemory> {
    let (text, wanted) = *row;
    let wanted = match wanted {
        Ok(words) => Ok(words),
        Err(line) => Err(ListError::Fault { line }),
    };
    for room in [1, 7, 512] {
        if reading(alloc, list, text.as_bytes(), room, &[])? != wanted {
            return Ok(false);
        }
    }
    Ok(true)
}

/// The first row that is not read as wanted.
fn first_wrong(alloc: Global, list: Kind, rows: &[Row]) -> Result<Option<usize>, NoMemory> {
    for (at, row) in rows.iter().enumerate() {
        if !reads_as(alloc, list, row)? {
            return Ok(Some(at));
        }
    }
    Ok(None)
}

const MISSING: [Row; 16] = [
    ("", Ok([0; 4])),
    ("# lost\n\n7\n9 10\r\n12", Ok([0x1680, 0, 0, 0])),
    (
        "0 31\n64 64\n127 65535",
        Ok([0xFFFF_FFFF, 0, 1, 0x8000_0000]),
    ),
    ("000000012\t12 \n12", Ok([0x1000, 0, 0, 0])),
    ("                              5\r\n", Ok([0x20, 0, 0, 0])),
    ("###############################\n", Ok([0; 4])),
    ("################################\n", Err(1)),
    ("65535", Ok([0; 4])),
    ("65536", Err(1)),
    ("7\n5 4\n", Err(2)),
    ("1 2 3", Err(1)),
    ("0000000012", Err(1)),
    ("8\r", Err(1)),
    ("8\r\r\n", Err(1)),
    ("8 # lost", Err(1)),
    ("8\n-1\n", Err(2)),
];

const BAD: [Row; 8] = [
    ("1 1\n2\n", Ok([0, 2, 0xFFFF_FFFF, 0])),
    (" 1\t31\n1 0\n\n1 0", Ok([0, 0x8000_0001, 0, 0])),
    ("3 031\n65535\n", Ok([0, 0, 0, 0x8000_0000])),
    ("3 32\n", Err(1)),
    ("65536 0\n", Err(1)),
    ("1 1 1", Err(1)),
    ("8\nx\ny\n", Err(2)),
    ("1 0x1\n", Err(1)),
];

#[test]
fn lists_of_missing_segments_are_read(rt: HostRuntime) -> Result<(), Fail> {
    assert_eq!(rt; first_wrong(rt.alloc(), Kind::Missing, &MISSING)?, None);
    Ok(())
}

#[test]
fn lists_of_bad_sectors_are_read(rt: HostRuntime) -> Result<(), Fail> {
    assert_eq!(rt; first_wrong(rt.alloc(), Kind::Bad, &BAD)?, None);
    Ok(())
}

#[test]
fn a_list_has_1048576_lines_at_most(rt: HostRuntime) -> Result<(), Fail> {
    let most = vec![in rt.alloc(); b'\n'; 1_048_576]?;
    let more = vec![in rt.alloc(); b'\n'; 1_048_577]?;
    let seen = (
        reading(rt.alloc(), Kind::Missing, &most, 512, &[])?,
        reading(rt.alloc(), Kind::Missing, &more, 512, &[])?,
    );
    assert_eq!(rt;
        seen,
        (Ok([0; 4]), Err(ListError::Fault { line: 1_048_577 }))
    );
    Ok(())
}

#[test]
fn a_read_of_a_list_that_fails_is_a_failure(rt: HostRuntime) -> Result<(), Fail> {
    let text = b"1 1\n1 32\n";
    let seen = [
        reading(rt.alloc(), Kind::Bad, text, 4, &[0])?,
        reading(rt.alloc(), Kind::Bad, text, 4, &[1])?,
        reading(rt.alloc(), Kind::Bad, text, 4, &[3])?,
    ];
    assert_eq!(rt;
        seen,
        [
            Err(ListError::Source),
            Err(ListError::Source),
            Err(ListError::Fault { line: 2 }),
        ]
    );
    Ok(())
}
