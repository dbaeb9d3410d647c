//! The file under a disk: its own calls, and an image's.

ghost use Rattle.std.specs.Prelude.{◌≡◌, ◌↔◌, IsOk, OnOk};
ghost use Rattle.tape_files.specs.Answers.{IsSynced};
ghost use Rattle.tape_files.specs.Apart.{IsApart};
ghost use Rattle.tape_files.specs.Edge.{SyncKind, Whole, DataAlone};

use std::fs::{File, OpenFile};
use std::io;
use std::io::ErrorKind;
use std::os::unix::fs::FileExt;

/// An open file as a disk needs it. It may tell which of its syncs succeeded.
pub trait DiskFile: FileExt {
    /// One sync of this kind succeeded, and brought the file from the first state to the second.
    ghost synced: { SyncKind → Self → Self → Type 0 };

    /// The number of its bytes.
    fn len(&self) -> io::Result<u64>;

    /// Makes it this long; new bytes are zero.
    fn set_len(&self, length: u64) -> io::Result<()>;

    /// Puts on the disk all that the system keeps of the file.
    fn sync_all(&mut self) -> io::Result<()>
        ensures { OnOk result (synced Whole self.old self.new) };

    /// Puts its data on the disk, and what finds them there.
    fn sync_data(&mut self) -> io::Result<()>
        ensures { OnOk result (synced DataAlone self.old self.new) };
}

/// A file of the system that was opened as an image: its descriptor is none of the standard streams.
#[derive(Drop)]
pub struct ImageFile {
    file: File,
    reads_only: bool,
    ghost apart: { IsApart file },
}

impl ImageFile {
    /// A file that was opened for reading alone, or also for writing.
    pub(crate) fn new(file: File, reads_only: bool) -> ImageFile
        requires { IsApart file }
        ensures file { result.file ≡ file }
        ensures reads_only { result.reads_only ≡ reads_only }
    {
        ImageFile { file, reads_only }
    }

    /// The file itself.
    pub(crate) fn file(&self) -> &File
        ensures { result.now ≡ self.now.file }
    {
        &self.file
    }

    /// Whether it was opened for reading alone.
    pub(crate) fn reads_only(&self) -> bool
        ensures { result ≡ self.now.reads_only }
    {
        self.reads_only
    }
}

/// The answer to a sync, where a file system that is never written knows none.
pub(crate) fn as_synced(answer: io::Result<()>, reads_only: bool) -> io::Result<()>
    ensures { IsOk result ↔ IsSynced reads_only answer }
{
    match answer {
        Err(error) if reads_only && error.kind() == ErrorKind::InvalidInput => Ok(()),
        answer => answer,
    }
}

impl FileExt for ImageFile {
    fn read_at(&self, into: &mut [u8], place: u64) -> io::Result<usize> {
        self.file.read_at(into, place)
    }

    fn write_at(&self, from: &[u8], place: u64) -> io::Result<usize> {
        self.file.write_at(from, place)
    }
}

impl DiskFile for ImageFile {
    // No clause says what the system does with a call.
    ghost synced = { λ kind old new. Unit {0} };

    fn len(&self) -> io::Result<u64> {
        Ok(self.file.metadata()?.len())
    }

    fn set_len(&self, length: u64) -> io::Result<()> {
        self.file.set_len(length)
    }

    fn sync_all(&mut self) -> io::Result<()> {
        as_synced(self.file.sync_all(), self.reads_only)
    }

    fn sync_data(&mut self) -> io::Result<()> {
        self.file.sync_data()
    }
}
