//! The opening of a file as an image: for writing where that may be, else for reading alone; and its creation.

ghost use Rattle.std.specs.Prelude.{◌≡◌, ◌↔◌, not, true, false, Err, IfErr, IfOk, IsOk};
ghost use Rattle.std.specs.Fs.{new_options, with_read, with_write, with_create_new, asks_write};
ghost use Rattle.tape_files.specs.Answers.{ForbidsWriting, TellsNone};
ghost use Rattle.tape_files.specs.Apart.{IsApart};

use crate::failure::Failure;
use crate::file::ImageFile;
use crate::image::not_opened;
use crate::links::behind_links;
use crate::{IfMissing, NoImage};
use std::fs::{File, Files, OpenOptions};
use std::io;
use std::io::ErrorKind;
use std::os::fd::{AsRawFd, RawFd};

/// The greatest descriptor of a standard stream.
const LAST_STREAM: RawFd = 2;

/// How a file is opened that is only read.
fn to_read() -> OpenOptions
    ensures { result ≡ with_read new_options true }
{
    let mut how = OpenOptions::new();
    how.read(true);
    how
}

/// How a file is opened that is also written, and that is there.
fn to_write() -> OpenOptions
    ensures { result ≡ with_write (with_read new_options true) true }
{
    let mut how = OpenOptions::new();
    how.read(true).write(true);
    how
}

/// How a file is made. Where one is there this fails, so nobody else's is taken for the new one.
fn to_create() -> OpenOptions
    ensures { result ≡ with_create_new (with_write (with_read new_options true) true) true }
{
    let mut how = OpenOptions::new();
    how.read(true).write(true).create_new(true);
    how
}

/// What is tried behind an opening for writing that failed.
#[derive(Clone, Copy)]
enum NextTry {
    /// There is no file: one is made.
    Create,
    /// It may not be written: it is opened to read it.
    ReadAlone,
    Nothing,
}

fn next_try(error: &io::Error) -> NextTry
    ensures create { (result ≡ NextTry.Create) ↔ TellsNone error.now }
    ensures read { (result ≡ NextTry.ReadAlone) ↔ ForbidsWriting error.now }
{
    match error.kind() {
        ErrorKind::NotFound => NextTry::Create,
        ErrorKind::PermissionDenied | ErrorKind::ReadOnlyFilesystem => NextTry::ReadAlone,
        _ => NextTry::Nothing,
    }
}

/// A file that was opened so.
fn as_image(file: File, how: &OpenOptions) -> Result<ImageFile, NoImage>
    ensures apart { IsOk result ↔ IsApart file }
    ensures reads_only { IfOk result (λ image. image.reads_only ≡ not (asks_write how.now)) }
    ensures refused { IfErr result (λ cause. cause ≡ NoImage.IsStream) }
{
    if file.as_raw_fd() > LAST_STREAM {
        Ok(ImageFile::new(file, !how.asks_write()))
    } else {
        Err(NoImage::IsStream)
    }
}

/// Opens the file at a path to read it alone.
pub fn open_alone<R: Files<File = File>>(files: &R, path: &str) -> Result<ImageFile, NoImage>
    ensures { IfOk result (λ image. image.reads_only ≡ true) }
{
    let how = to_read();
    match how.open(files, path) {
        Ok(file) => as_image(file, &how),
        Err(error) => Err(not_opened(&error)),
    }
}

/// Makes the file that a path names, where its links lead. One that is there by now is left alone, and refused.
fn create<R: Files<File = File> + Alloc>(files: &R, path: &str) -> Result<ImageFile, NoImage>
    ensures { IfOk result (λ image. image.reads_only ≡ false) }
{
    let real = behind_links(files, path)?;
    let how = to_create();
    match how.open(files, real.as_path()) {
        Ok(file) => as_image(file, &how),
        Err(error) => Err(NoImage::NotMade(Failure::of(&error))),
    }
}

/// Answers for a path that names no file: one is made, or it is refused.
fn make_missing<R: Files<File = File> + Alloc>(
    files: &R,
    path: &str,
    if_missing: IfMissing,
) -> Result<ImageFile, NoImage>
    ensures { if_missing ≡ IfMissing.Refuse → result ≡ Err NoImage.Missing }
{
    match if_missing {
        IfMissing::Create => create(files, path),
        IfMissing::Refuse => Err(NoImage::Missing),
    }
}

/// Opens the file at a path, and for reading alone where it may not be written. Where there is none it is made or refused,
/// as is asked. An open that may create it is not tried before: in a folder that all may write, Linux can refuse that for
/// another user's file.
pub fn open_file<R: Files<File = File> + Alloc>(
    files: &R,
    path: &str,
    if_missing: IfMissing,
) -> Result<ImageFile, NoImage> {
    let how = to_write();
    match how.open(files, path) {
        Ok(file) => as_image(file, &how),
        Err(error) => match next_try(&error) {
            NextTry::Create => make_missing(files, path, if_missing),
            NextTry::ReadAlone => open_alone(files, path),
            NextTry::Nothing => Err(not_opened(&error)),
        },
    }
}
