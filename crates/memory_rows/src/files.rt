//! Real files as disks, what is no image, and the standard streams of the test.

use qic_base::{Disk, DiskFailed, Sink, Source};
use std::fs;
use std::fs::{File, OpenOptions};
use std::os::unix::fs::FileExt;
use std::test::Fail;
use tape_files::{
    Failure, FileDisk, IfMissing, NoImage, StderrSink, StdinSource, StdoutSink, open_image,
};

type Shown = (
    [Result<(), DiskFailed>; 4],
    Result<usize, DiskFailed>,
    [u8; 11],
);

/// The answers to two writes into ten zero bytes and to a sync behind each, and what a read of eleven bytes gives then,
/// with the byte 1 behind it.
fn use_disk(disk: &mut FileDisk) -> Result<Shown, DiskFailed> {
    disk.set_len(10)?;
    let done = [
        disk.write_at(4, b"tape"),
        disk.sync(),
        disk.write_at(0, b"a"),
        disk.sync(),
    ];
    let mut into = [1; 11];
    Ok((done, disk.read_at(0, &mut into), into))
}

#[test]
fn a_file_is_a_disk(rt: HostRuntime) -> Result<(), Fail> {
    let path = "disk-of-a-test.img";
    let mut disk = open_image(&rt, path, IfMissing::Create)?;
    let seen = (use_disk(&mut disk), fs::remove_file(&rt, path).is_ok());
    let shown = ([Ok(()); 4], Ok(10), *b"a\0\0\0tape\0\0\x01");
    assert_eq!(rt; seen, (Ok(shown), true));
    Ok(())
}

type Told = (Result<u64, DiskFailed>, Result<usize, DiskFailed>, [u8; 4]);

/// The length of a file, and what a read from its third byte on puts into four bytes 1.
fn told(disk: &mut FileDisk) -> Told {
    let mut into = [1; 4];
    (disk.len(), disk.read_at(2, &mut into), into)
}

/// What a read of an empty file answers, and what the file tells that another hand makes `grown` and then cuts to three
/// bytes, with that hand's success.
fn told_of_another(
    disk: &mut FileDisk,
    other: &File,
) -> (Result<usize, DiskFailed>, [(bool, Told); 2]) {
    (
        disk.read_at(0, &mut [1; 4]),
        [
            (other.write_all_at(b"grown", 0).is_ok(), told(disk)),
            (other.set_len(3).is_ok(), told(disk)),
        ],
    )
}

#[test]
fn a_file_that_others_grow_and_cut_is_seen(rt: HostRuntime) -> Result<(), Fail> {
    let path = "file-of-a-test.img";
    let mut disk = open_image(&rt, path, IfMissing::Create)?;
    let other = OpenOptions::new().write(true).open(&rt, path)?;
    let seen = (
        told_of_another(&mut disk, &other),
        fs::remove_file(&rt, path).is_ok(),
    );
    let told = [
        (true, (Ok(5), Ok(3), *b"own\x01")),
        (true, (Ok(3), Ok(1), *b"o\x01\x01\x01")),
    ];
    assert_eq!(rt; seen, ((Ok(0), told), true));
    Ok(())
}

/// Linux's number for a path below what is no folder.
const ENOTDIR: u32 = 20;

fn refusal(rt: &HostRuntime, path: &str) -> Option<NoImage> {
    open_image(rt, path, IfMissing::Create).err()
}

/// How an open of a path that is an image of this run is refused, and of three that are none.
fn refusals(rt: &HostRuntime, path: &str) -> [Option<NoImage>; 4] {
    [
        refusal(rt, path),
        refusal(rt, "."),
        refusal(rt, "/dev/null"),
        refusal(rt, "/dev/null/image"),
    ]
}

#[test]
fn only_a_regular_file_that_nobody_has_is_an_image(rt: HostRuntime) -> Result<(), Fail> {
    let path = "image-of-a-test.img";
    let first = open_image(&rt, path, IfMissing::Create)?;
    let refused = refusals(&rt, path);
    drop(first);
    let seen = (
        refused,
        refusal(&rt, path),
        fs::remove_file(&rt, path).is_ok(),
    );
    let want = [
        Some(NoImage::Locked),
        Some(NoImage::NotRegular),
        Some(NoImage::NotRegular),
        Some(NoImage::NotOpened(Failure::Number(ENOTDIR))),
    ];
    assert_eq!(rt; seen, (want, None, true));
    Ok(())
}

#[test]
fn an_input_that_ended_gives_nothing_and_outputs_take_bytes(rt: HostRuntime) {
    let mut into = [0; 4];
    let seen = (
        StdinSource::new(rt.stdin()).read(&mut into),
        into,
        StdoutSink::new(rt.stdout()).write(b"out\n"),
        StderrSink::new(rt.stderr()).write(b"error\n"),
    );
    assert_eq!(rt; seen, (Ok(0), [0; 4], Ok(4), Ok(6)));
}
