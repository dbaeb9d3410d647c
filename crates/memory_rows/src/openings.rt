//! What an opening asks of the file system, in order, and what it makes of answers that are chosen.

use std::alloc::{Allocator, Global};
use std::cell::Cell;
use std::fs::{File, Files, Metadata, OpenOptions};
use std::io::{ErrorKind, Write};
use std::path::PathBuf;
use std::test::Fail;
use std::{fs, io};
use tape_files::{Failure, IfMissing, NoImage, open_image, open_to_read};

/// What was asked, a letter for each: `k` for the kind of what a path names, `l` for what a link names; and for an open
/// `w` where it writes, `c` where it makes a new file, and `r` where it reads alone.
type Asks = [u8; 12];

/// The run's file system, which tells what it was asked.
#[derive(Drop)]
struct Watched<'a> {
    rt: &'a HostRuntime,
    asks: Cell<Asks>,
    count: Cell<usize>,
    /// How each open to write fails.
    denied: Option<ErrorKind>,
    /// At this ask, counted from 0, the kind of the folder is told, or that of a file that is there.
    other: Option<(usize, &'a str)>,
}

impl<'a> Watched<'a> {
    /// The number of this ask.
    fn note(&self, letter: u8) -> usize {
        let count = self.count.get();
        let mut asks = self.asks.get();
        if count < asks.len() {
            asks[count] = letter;
        }
        self.asks.set(asks);
        self.count.set(count.saturating_add(1));
        count
    }
}

impl<'a> Alloc for Watched<'a> {
    type A = Global;

    fn alloc(&self) -> Global {
        self.rt.alloc()
    }
}

impl<'a> Files for Watched<'a> {
    type File = File;

    type Dir = <HostRuntime as Files>::Dir;

    fn open_file(&self, how: &OpenOptions, path: &str) -> io::Result<File> {
        let letter = if how.asks_create_new() {
            b'c'
        } else if how.asks_create() || how.asks_truncate() || how.asks_append() {
            b'?'
        } else if how.asks_write() {
            b'w'
        } else {
            b'r'
        };
        self.note(letter);
        match self.denied {
            Some(kind) if letter == b'w' => Err(io::Error::from(kind)),
            _ => self.rt.open_file(how, path),
        }
    }

    fn open_dir(&self, path: &str) -> io::Result<Self::Dir> {
        self.rt.open_dir(path)
    }

    fn metadata(&self, path: &str) -> io::Result<Metadata> {
        let count = self.note(b'k');
        match self.other {
            Some((at, other)) if at == count => self.rt.metadata(other),
            _ => self.rt.metadata(path),
        }
    }

    fn symlink_metadata(&self, path: &str) -> io::Result<Metadata> {
        self.rt.symlink_metadata(path)
    }

    fn copy(&self, from: &str, to: &str) -> io::Result<u64> {
        self.rt.copy(from, to)
    }

    fn rename(&self, from: &str, to: &str) -> io::Result<()> {
        self.rt.rename(from, to)
    }

    fn remove_file(&self, path: &str) -> io::Result<()> {
        self.rt.remove_file(path)
    }

    fn create_dir(&self, path: &str) -> io::Result<()> {
        self.rt.create_dir(path)
    }

    fn remove_dir(&self, path: &str) -> io::Result<()> {
        self.rt.remove_dir(path)
    }

    fn remove_dir_all<B: Allocator>(&self, alloc: B, path: &str) -> io::Result<()> {
        self.rt.remove_dir_all(alloc, path)
    }

    fn read_link<B: Allocator>(&self, alloc: B, path: &str) -> io::Result<PathBuf<B>> {
        self.note(b'l');
        self.rt.read_link(alloc, path)
    }
}

/// The path that a row opens as an image, how an open to write fails, and at which ask another file's kind is told.
type Case<'a> = (&'a str, Option<ErrorKind>, Option<(usize, &'a str)>);

/// How the opening of an image is refused, and what it asks.
fn opening(rt: &HostRuntime, case: Case<'_>, if_missing: IfMissing) -> (Option<NoImage>, Asks) {
    let (path, denied, other) = case;
    let files = Watched {
        rt,
        asks: Cell::new([b'-'; 12]),
        count: Cell::new(0),
        denied,
        other,
    };
    (open_image(&files, path, if_missing).err(), files.asks.get())
}

/// The same of an opening to read alone.
fn reading(rt: &HostRuntime, path: &str) -> (Option<NoImage>, Asks) {
    let files = Watched {
        rt,
        asks: Cell::new([b'-'; 12]),
        count: Cell::new(0),
        denied: None,
        other: None,
    };
    (open_to_read(&files, path).err(), files.asks.get())
}

/// A file with a byte.
const KEPT: &str = "kept-of-a-test.img";

/// No file at first.
const MADE: &str = "made-of-a-test.img";

/// Linux's number for a path that names nothing.
const ENOENT: u32 = 2;

/// Linux's number for a file that is there already.
const EEXIST: u32 = 17;

/// A path whose kind is asked first, so a device is not even opened; the kinds of the three streams; the answers to an open to
/// write; and what the open file is, and its name once it is locked.
const TABLE: [(Case<'static>, Option<NoImage>, &[u8; 12]); 13] = [
    ((KEPT, None, None), None, b"kkkkwk------"),
    (
        ("/dev/null", None, None),
        Some(NoImage::NotRegular),
        b"k-----------",
    ),
    (
        ("/dev/null", None, Some((0, KEPT))),
        Some(NoImage::NotRegular),
        b"kkkkw-------",
    ),
    (
        (KEPT, None, Some((1, MADE))),
        Some(NoImage::StreamsUnseen(Failure::Number(ENOENT))),
        b"kk----------",
    ),
    (
        (KEPT, None, Some((2, MADE))),
        Some(NoImage::StreamsUnseen(Failure::Number(ENOENT))),
        b"kkk---------",
    ),
    (
        (KEPT, None, Some((3, MADE))),
        Some(NoImage::StreamsUnseen(Failure::Number(ENOENT))),
        b"kkkk--------",
    ),
    (
        (KEPT, None, Some((5, "."))),
        Some(NoImage::Moved),
        b"kkkkwk------",
    ),
    (
        (KEPT, None, Some((5, MADE))),
        Some(NoImage::Moved),
        b"kkkkwk------",
    ),
    (
        (KEPT, Some(ErrorKind::PermissionDenied), None),
        None,
        b"kkkkwrk-----",
    ),
    (
        (KEPT, Some(ErrorKind::ReadOnlyFilesystem), None),
        None,
        b"kkkkwrk-----",
    ),
    (
        (KEPT, Some(ErrorKind::NotFound), None),
        Some(NoImage::NotMade(Failure::Number(EEXIST))),
        b"kkkkwlc-----",
    ),
    (
        (KEPT, Some(ErrorKind::StorageFull), None),
        Some(NoImage::NotOpened(Failure::Untold)),
        b"kkkkw-------",
    ),
    ((MADE, None, None), None, b"kkkkwlcklr--"),
];

/// The first row whose opening goes otherwise; None where there is none.
fn first_other(rt: &HostRuntime) -> Option<usize> {
    for (i, (case, refused, asks)) in TABLE.iter().enumerate() {
        if opening(rt, *case, IfMissing::Create) != (*refused, **asks) {
            return Some(i);
        }
    }
    None
}

#[test]
fn a_file_is_opened_by_its_kind_and_made_only_where_none_is(rt: HostRuntime) -> Result<(), Fail> {
    File::create(&rt, KEPT)?.write_all(b"k")?;
    let seen = (
        first_other(&rt),
        reading(&rt, KEPT),
        fs::read(&rt, KEPT)?.as_slice() == b"k".as_slice(),
        fs::remove_file(&rt, KEPT).is_ok(),
        fs::remove_file(&rt, MADE).is_ok(),
    );
    let reads = (None, *b"kkkkrk------");
    assert_eq!(rt; seen, (None, reads, true, true, true));
    Ok(())
}

#[test]
fn a_file_that_is_missing_is_refused_where_that_is_asked(rt: HostRuntime) {
    let refuse = |path| opening(&rt, (path, None, None), IfMissing::Refuse);
    let seen = (
        refuse("missing-of-a-test.img"),
        fs::metadata(&rt, "missing-of-a-test.img").is_err(),
    );
    let want = (Some(NoImage::Missing), *b"kkkkw-------");
    assert_eq!(rt; seen, (want, true));
}
