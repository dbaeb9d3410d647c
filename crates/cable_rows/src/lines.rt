//! Each form of a script's line with its value, and bytes beside each that are no line.

use crate::memory::source;
use qic_base::{Name, Source, SourceFailed};
use qic_mem::MemSource;
use std::alloc::Global;
use std::test::Fail;
use tape_script::{Line, LineRead, read_line};

/// 1994-03-01T12:00:00.
const NOON: u32 = 0x3052_65C0;

/// How many bytes the source has left, of at most 256.
fn left(source: &mut MemSource) -> Result<usize, SourceFailed> {
    source.read(&mut [0; 256])
}

/// The line with which a source begins, if it is one, how many bytes were read in its place, and how many are left. At
/// the end of the source there is nothing.
type Seen = Option<(Option<Line>, usize, usize)>;

/// What is read of a source.
fn seen_of(source: &mut MemSource) -> Result<Seen, SourceFailed> {
    let (line, read) = match read_line(source, &mut [0; 128])? {
        LineRead::Line { line, read } => (Some(line), read),
        LineRead::Bad { read } => (None, read),
        LineRead::End => return Ok(None),
    };
    Ok(Some((line, usize::from(read), left(source)?)))
}

/// What is read of a text.
fn seen(alloc: Global, text: &[u8]) -> Result<Seen, Fail> {
    let mut source = source(alloc, text, &[])?;
    Ok(seen_of(&mut source)?)
}

/// Whether a text begins with this line, or with none, and all of it but `rest` bytes is read.
fn begins(alloc: Global, text: &str, line: Option<Line>, rest: usize) -> Result<bool, Fail> {
    let taken = text.len().saturating_sub(rest);
    Ok(seen(alloc, text.as_bytes())? == Some((line, taken, rest)))
}

/// The index of the first text that begins with a line, or of which something is left.
fn first_that_is_not_bad(alloc: Global, texts: &[&str]) -> Result<Option<usize>, Fail> {
    for i in 0..texts.len() {
        if !begins(alloc, texts[i], None, 0)? {
            return Ok(Some(i));
        }
    }
    Ok(None)
}

/// The index of the first text that does not begin with its line, or of which something is left.
fn first_that_is_other(alloc: Global, rows: &[(&str, Line)]) -> Result<Option<usize>, Fail> {
    for i in 0..rows.len() {
        let (text, line) = rows[i];
        if !begins(alloc, text, Some(line), 0)? {
            return Ok(Some(i));
        }
    }
    Ok(None)
}

/// The line of an append, with the name filled up with spaces.
fn append(text: &str, length: u32, date: u32) -> Line {
    let mut bytes = [b' '; 44];
    for (at, byte) in text.as_bytes().iter().enumerate() {
        if at < 44 {
            bytes[at] = *byte;
        }
    }
    let name = Name::from_bytes(&bytes);
    Line::Append { name, length, date }
}

#[test]
fn appends(rt: HostRuntime) -> Result<(), Fail> {
    let table = [
        ("append a 10\n", append("a", 10, 0)),
        ("append a 0\n", append("a", 0, 0)),
        ("append a 999999999\n", append("a", 999_999_999, 0)),
        ("append a 10 1994-03-01T12:00:00\n", append("a", 10, NOON)),
        (
            "append an-evening-of-forty-four-bytes-all-of-them-- 3\n",
            append("an-evening-of-forty-four-bytes-all-of-them--", 3, 0),
        ),
    ];
    assert_eq!(rt; first_that_is_other(rt.alloc(), &table)?, None);
    Ok(())
}

#[test]
fn other_lines(rt: HostRuntime) -> Result<(), Fail> {
    let table = [
        ("list\n", Line::List),
        ("scrub\n", Line::Scrub),
        ("end\n", Line::End),
        ("restore 0\n", Line::Restore { number: 0 }),
        ("restore 12\n", Line::Restore { number: 12 }),
        (
            "restore 999999999\n",
            Line::Restore {
                number: 999_999_999,
            },
        ),
        (
            "lose 4 0\n",
            Line::Lose {
                segment: 4,
                sector: 0,
            },
        ),
        (
            "lose 999999999 31\n",
            Line::Lose {
                segment: 999_999_999,
                sector: 31,
            },
        ),
    ];
    assert_eq!(rt; first_that_is_other(rt.alloc(), &table)?, None);
    Ok(())
}

#[test]
fn nothing_behind_a_line_is_read(rt: HostRuntime) -> Result<(), Fail> {
    let alloc = rt.alloc();
    let found = [
        begins(alloc, "list\nscrub\n", Some(Line::List), 6)?,
        begins(alloc, "append a 3\nabclist\n", Some(append("a", 3, 0)), 8)?,
        begins(alloc, "end\nno line", Some(Line::End), 7)?,
        begins(alloc, "no line\nlist\n", None, 5)?,
    ];
    assert_eq!(rt; found, [true; 4]);
    Ok(())
}

#[test]
fn no_lines(rt: HostRuntime) -> Result<(), Fail> {
    let table = [
        "\n",
        " \n",
        "list \n",
        " list\n",
        "list\r\n",
        "List\n",
        "lists\n",
        "list now\n",
        "end \n",
        "end\r\n",
        "END\n",
        "scrub 1\n",
        "restore\n",
        "restore \n",
        "restore 01\n",
        "restore  1\n",
        "restore 1 \n",
        "restore 1 1\n",
        "restore 1000000000\n",
        "restore -1\n",
        "lose 4\n",
        "lose 4 0 0\n",
        "lose 4  0\n",
        "lose 04 0\n",
        "lose\t4 0\n",
        "info\n",
        "pulses\n",
        "script\n",
        "new 3\n",
        "format a\n",
        "make 1 1\n",
        "protect on\n",
    ];
    assert_eq!(rt; first_that_is_not_bad(rt.alloc(), &table)?, None);
    Ok(())
}

#[test]
fn no_appends(rt: HostRuntime) -> Result<(), Fail> {
    let table = [
        "append\n",
        "append a\n",
        "append a \n",
        "append  10\n",
        "append a  10\n",
        "append a 010\n",
        "append a 1000000000\n",
        "append a ten\n",
        "append two names 10\n",
        "append a\tb\x7f 10\n",
        "append an-evening-of-forty-five-bytes-one-too-many-- 10\n",
        "append a 10 \n",
        "append a 10 0\n",
        "append a 10 1994-3-01T12:00:00\n",
        "append a 10 1994-13-01T12:00:00\n",
        "append a 10  1994-03-01T12:00:00\n",
        "append a 10 1994-03-01T12:00:00 \n",
        "append a 10 1994-03-01T12:00:00 x\n",
        "append a 1994-03-01T12:00:00 10\n",
    ];
    assert_eq!(rt; first_that_is_not_bad(rt.alloc(), &table)?, None);
    Ok(())
}

#[test]
fn the_last_line_has_its_newline(rt: HostRuntime) -> Result<(), Fail> {
    let table = ["list", "end", "append a 10", "restore 1", "x"];
    let found = first_that_is_not_bad(rt.alloc(), &table)?;
    let is_ended = seen(rt.alloc(), b"")?.is_none();
    assert_eq!(rt; (found, is_ended), (None, true));
    Ok(())
}

/// How many bytes are read of so many `a` and a newline, which are no line, and how many are left.
fn of_long(alloc: Global, long: usize) -> Result<Option<(usize, usize)>, Fail> {
    let mut bytes = [b'a'; 201];
    bytes[200] = b'\n';
    match seen(alloc, &bytes[200 - long.min(200)..])? {
        Some((None, read, left)) => Ok(Some((read, left))),
        _ => Ok(None),
    }
}

#[test]
fn long_lines(rt: HostRuntime) -> Result<(), Fail> {
    let alloc = rt.alloc();
    let found = [
        of_long(alloc, 126)?,
        of_long(alloc, 127)?,
        // No place is left for the newline.
        of_long(alloc, 128)?,
        of_long(alloc, 200)?,
    ];
    let all = [
        Some((127, 0)),
        Some((128, 0)),
        Some((128, 1)),
        Some((128, 73)),
    ];
    assert_eq!(rt; found, all);
    Ok(())
}
