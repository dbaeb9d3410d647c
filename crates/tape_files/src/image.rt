//! The opening of an image file.

ghost use Rattle.std.specs.Prelude.{◌≡◌, ◌↔◌, false, Err, Some, IfErr, IfOk, IsOk, IsSomeAnd, IsTrue};
ghost use Rattle.std.specs.Fs.{IsFile, file_type};
ghost use Rattle.tape_files.specs.Failures.{failure_by};
ghost use Rattle.tape_files.specs.Refusals.{IsLockRefusal, IsUnseen};
ghost use Rattle.tape_files.specs.Streams.{IsNoStream};

use crate::FileDisk;
use crate::failure::Failure;
use crate::file::{ImageFile, as_synced};
use crate::links::{behind_links, folder_of};
use crate::opened::{open_alone, open_file};
use std::fs::{File, Files, Metadata, OpenFile, TryLockError};
use std::os::unix::fs::MetadataExt;
use std::{fs, io};

/// Why a path is no image. Nothing of what it names was read or written, but that a file may have been created.
#[derive(Clone, Copy, Debug, PartialEq, Eq)]
pub enum NoImage {
    /// The system doesn't open it, or tells nothing of it.
    NotOpened(Failure),
    /// There is none, and none is to be made.
    Missing,
    /// There is none, and the system doesn't create it.
    NotMade(Failure),
    /// Once it was locked the path named another file, or none.
    Moved,
    /// It is a folder, a device, a pipe or a socket.
    NotRegular,
    /// It is standard input or output, or has the descriptor of a standard stream.
    IsStream,
    /// It is standard error, so what is written there would be written into it.
    IsErrorStream,
    /// A standard stream can't be looked at, so it may be this file.
    StreamsUnseen(Failure),
    /// Another run has it.
    Locked,
    /// It can't be locked, so another run may have it.
    NotLocked(Failure),
    /// What it holds, or its entry in its folder, could not be put on the disk.
    NotSynced(Failure),
    /// There was no memory for the name of its folder.
    NoMemory,
    /// A look at what it holds failed. What opens a file doesn't look at that.
    NotSeen(Failure),
    /// It holds something else: it is no image, and none that is being made. What opens a file doesn't look at that.
    HoldsOther,
}

/// What becomes of a path that names no file.
#[derive(Clone, Copy, PartialEq, Eq)]
pub enum IfMissing {
    /// The file is made, empty.
    Create,
    /// It is refused.
    Refuse,
}

/// The refusal of a file that the system doesn't open, or tells nothing of.
pub(crate) fn not_opened(error: &io::Error) -> NoImage
    ensures { result ≡ NoImage.NotOpened (failure_by error.now) }
{
    NoImage::NotOpened(Failure::of(error))
}

/// The refusal of a file of which the system doesn't put all on the disk.
fn not_synced(error: &io::Error) -> NoImage
    ensures { result ≡ NoImage.NotSynced (failure_by error.now) }
{
    NoImage::NotSynced(Failure::of(error))
}

/// Opens the image at a path, and for reading alone where it may not be written. Where there is none it is created, empty,
/// or refused, as is asked. Its bytes, its length and the entry of an empty one are on the disk then. Until it is dropped no
/// other run can write it.
pub fn open_image<R: Files<File = File> + Alloc>(
    files: &R,
    path: &str,
    if_missing: IfMissing,
) -> Result<FileDisk, NoImage>
    ensures settled { IfOk result (λ disk. disk.resized ≡ false) }
    ensures seen { IfOk result (λ disk. disk.seen ≡ 0) }
    ensures faults { IfOk result (λ disk. disk.faults ≡ 0) }
{
    require_regular_path(files, path)?;
    let streams = stream_numbers(files)?;
    let file = open_file(files, path, if_missing)?;
    let metadata = require_image(files, path, &file, &streams)?;
    if metadata.len() == 0 {
        sync_folder(files, path, file.reads_only())?;
    }
    FileDisk::open(file).map_err(|failure| NoImage::NotSynced(failure))
}

/// Opens the file at a path to read it alone; it is not created. It is refused where an image would be, and until it is
/// dropped no other run can write it as an image.
pub fn open_to_read<R: Files<File = File>>(files: &R, path: &str) -> Result<FileDisk, NoImage>
    ensures settled { IfOk result (λ disk. disk.resized ≡ false) }
    ensures seen { IfOk result (λ disk. disk.seen ≡ 0) }
    ensures faults { IfOk result (λ disk. disk.faults ≡ 0) }
{
    require_regular_path(files, path)?;
    let streams = stream_numbers(files)?;
    let image = open_alone(files, path)?;
    require_image(files, path, &image, &streams)?;
    FileDisk::open(image).map_err(|failure| NoImage::NotSynced(failure))
}

/// A device may act where it is only opened, so the kind of what a path names is asked before that.
fn require_regular_path(files: &impl Files, path: &str) -> Result<(), NoImage> {
    match fs::metadata(files, path) {
        Ok(metadata) => require_regular(&metadata),
        Err(_) => Ok(()),
    }
}

/// Asked of the open file, since what a path names may change. Once it is locked the path is looked at again: a file that
/// was put in its place, or took its name, would be written by the next run.
fn require_image(
    files: &impl Files,
    path: &str,
    image: &ImageFile,
    streams: &StreamNumbers,
) -> Result<Metadata, NoImage> {
    let file = image.file();
    let metadata = file.metadata().map_err(|error| not_opened(&error))?;
    require_regular(&metadata)?;
    require_no_stream(number_of(&metadata), streams)?;
    // A file that is opened for reading alone takes no other lock on some network file systems.
    require_unlocked(if image.reads_only() {
        file.try_lock_shared()
    } else {
        file.try_lock()
    })?;
    require_named(number_of(&metadata), number_at(files, path))?;
    Ok(metadata)
}

fn require_regular(metadata: &Metadata) -> Result<(), NoImage>
    ensures regular { IsOk result ↔ IsFile (file_type metadata.now) }
    ensures refused { IfErr result (λ cause. cause ≡ NoImage.NotRegular) }
{
    if metadata.is_file() {
        Ok(())
    } else {
        Err(NoImage::NotRegular)
    }
}

/// What no two files have.
#[derive(Clone, Copy, PartialEq, Eq)]
struct FileNumber {
    device: u64,
    number: u64,
}

/// The numbers of the standard streams.
#[derive(Clone, Copy)]
struct StreamNumbers {
    input: FileNumber,
    output: FileNumber,
    errors: FileNumber,
}

fn number_of(metadata: &Metadata) -> FileNumber {
    FileNumber {
        device: metadata.dev(),
        number: metadata.ino(),
    }
}

fn number_at(files: &impl Files, path: &str) -> Option<FileNumber> {
    match fs::metadata(files, path) {
        Ok(metadata) => Some(number_of(&metadata)),
        Err(_) => None,
    }
}

/// Whether a path names the file that is standard error, so that what is printed there would be written into it.
pub fn is_standard_error(files: &impl Files, path: &str) -> bool {
    are_one(number_at(files, path), number_at(files, "/proc/self/fd/2"))
}

/// Whether both numbers are known, and are those of one file.
fn are_one(file: Option<FileNumber>, stream: Option<FileNumber>) -> bool
    ensures { IsTrue result ↔ IsSomeAnd file (λ number. stream ≡ Some number) }
{
    file.is_some() && file == stream
}

/// The number of a standard stream, by the answer to a look at it.
fn seen_number(answer: io::Result<Metadata>) -> Result<FileNumber, NoImage>
    ensures seen { IsOk result ↔ IsOk answer }
    ensures refused { IfErr result (IsUnseen answer) }
{
    match answer {
        Ok(metadata) => Ok(number_of(&metadata)),
        Err(error) => Err(NoImage::StreamsUnseen(Failure::of(&error))),
    }
}

/// The numbers of the standard streams. A stream that can't be looked at may be any file, so each opening is refused.
fn stream_numbers(files: &impl Files) -> Result<StreamNumbers, NoImage> {
    Ok(StreamNumbers {
        input: seen_number(fs::metadata(files, "/proc/self/fd/0"))?,
        output: seen_number(fs::metadata(files, "/proc/self/fd/1"))?,
        errors: seen_number(fs::metadata(files, "/proc/self/fd/2"))?,
    })
}

fn require_no_stream(file: FileNumber, streams: &StreamNumbers) -> Result<(), NoImage>
    ensures apart { IsOk result ↔ IsNoStream file streams.now }
    ensures errors { (result ≡ Err NoImage.IsErrorStream) ↔ (streams.now.errors ≡ file) }
{
    if streams.errors == file {
        Err(NoImage::IsErrorStream)
    } else if streams.input == file || streams.output == file {
        Err(NoImage::IsStream)
    } else {
        Ok(())
    }
}

/// The file that a path names now, where there is one, is the one that was opened.
fn require_named(file: FileNumber, named: Option<FileNumber>) -> Result<(), NoImage>
    ensures named { IsOk result ↔ (named ≡ Some file) }
    ensures refused { IfErr result (λ cause. cause ≡ NoImage.Moved) }
{
    if named == Some(file) {
        Ok(())
    } else {
        Err(NoImage::Moved)
    }
}

/// A file that can't be locked is refused, whatever the cause: without a lock two runs would write over one another.
fn require_unlocked(answer: Result<(), TryLockError>) -> Result<(), NoImage>
    ensures unlocked { IsOk result ↔ IsOk answer }
    ensures locked { (result ≡ Err NoImage.Locked) ↔ (answer ≡ Err TryLockError.WouldBlock) }
    ensures refused { IfErr result (IsLockRefusal answer) }
{
    match answer {
        Ok(()) => Ok(()),
        Err(TryLockError::WouldBlock) => Err(NoImage::Locked),
        Err(TryLockError::Error(error)) => Err(NoImage::NotLocked(Failure::of(&error))),
    }
}

/// Puts the entry of an empty file on the disk, as it may be new, or left by a run that ended before it did this. Memory
/// is taken for its path, which is not that of a link to it.
fn sync_folder<R: Files<File = File> + Alloc>(
    files: &R,
    path: &str,
    reads_only: bool,
) -> Result<(), NoImage> {
    let real = behind_links(files, path)?;
    let folder = File::open(files, folder_of(real.as_path())).map_err(|error| not_synced(&error))?;
    as_synced(folder.sync_all(), reads_only).map_err(|error| not_synced(&error))
}

#[cfg(test)]
mod tests {
    use super::*;
    use std::test::Fail;

    /// The numbers of the roots of two file systems of Linux, each of which is the first of its own.
    #[test]
    fn files_of_two_devices_have_two_numbers(rt: HostRuntime) -> Result<(), Fail> {
        let [Some(first), Some(second)] = [number_at(&rt, "/proc"), number_at(&rt, "/sys")] else {
            return Err(Fail::from("no file systems of Linux"));
        };
        let told = fs::metadata(&rt, "/proc")?;
        let seen = (first.number == second.number, first == second);
        assert_eq!(rt; seen, (true, false));
        assert_eq!(rt; (first.device, first.number), (told.dev(), told.ino()));
        Ok(())
    }
}
