//! Where a path leads, and the folder of what is there.

ghost use Rattle.std.specs.Prelude.{◌≡◌, ◌↔◌, ◌⊎◌, IsTrue, IfErr, OnOk};
ghost use Rattle.std.specs.IoError.{error_kind};
ghost use Rattle.std.specs.Path.{path_buf_bytes, path_bytes};
ghost use Rattle.tape_files.specs.Answers.{TellsNoLink};
ghost use Rattle.tape_files.specs.Failures.{failure_by};
ghost use Rattle.tape_files.specs.Paths.{behind_link, folder_name};
ghost use Rattle.tape_files.specs.declared.failure.Failure.{Failure};

use crate::NoImage;
use crate::failure::Failure;
use crate::image::not_opened;
use std::alloc::Allocator;
use std::fs::Files;
use std::io::ErrorKind;
use std::path::{Path, PathBuf};
use std::{fs, io};

/// The most links that Linux follows in a path.
const MOST_LINKS: u32 = 40;

/// Linux's number for a path that has more of them.
const ELOOP: u32 = 40;

/// Whether a path that can't be read as a link is none.
fn is_no_link(error: &io::Error) -> bool
    ensures { IsTrue result ↔ TellsNoLink error.now }
{
    matches!(error.kind(), ErrorKind::InvalidInput | ErrorKind::NotFound)
}

/// The refusal of a path whose link can't be read.
fn unread(error: &io::Error) -> NoImage
    ensures memory { (result ≡ NoImage.NoMemory) ↔ (error_kind error.now ≡ ErrorKind.OutOfMemory) }
    ensures kinds { (result ≡ NoImage.NoMemory) ⊎ (result ≡ NoImage.NotOpened (failure_by error.now)) }
{
    match error.kind() {
        ErrorKind::OutOfMemory => NoImage::NoMemory,
        _ => not_opened(error),
    }
}

/// Goes on from a link to what it names, which is meant from the link's folder on.
fn follow<A: Allocator>(path: &mut PathBuf<A>, link: &PathBuf<A>) -> Result<(), NoImage>
    ensures path { OnOk result (
        path_buf_bytes path.new ≡ behind_link (path_buf_bytes path.old) (path_buf_bytes link.now)) }
    ensures refused { IfErr result (λ cause. cause ≡ NoImage.NoMemory) }
{
    path.pop();
    path.push(link).map_err(|_| NoImage::NoMemory)
}

/// The path of what a path names: itself, or, where it is a symbolic link, what that names, and so on. Memory is taken
/// for it. Nothing has to be there. It is refused for want of memory, or as one that can't be opened.
pub fn behind_links<R: Files + Alloc>(files: &R, path: &str) -> Result<PathBuf<R::A>, NoImage>
    ensures refused { IfErr result (λ cause. (cause ≡ NoImage.NoMemory)
        ⊎ ((failure : Failure) × (cause ≡ NoImage.NotOpened failure))) }
{
    let Ok(mut real) = PathBuf::from_str(files.alloc(), path) else {
        return Err(NoImage::NoMemory);
    };
    for _ in 0..MOST_LINKS {
        match fs::read_link(files, &real) {
            Ok(link) => follow(&mut real, &link)?,
            Err(error) if is_no_link(&error) => return Ok(real),
            Err(error) => return Err(unread(&error)),
        }
    }
    Err(NoImage::NotOpened(Failure::Number(ELOOP)))
}

/// The folder that a path names a file in, as the path is written: `.` where it is a name alone.
pub fn folder_of(path: Path<'_>) -> Path<'_>
    ensures { path_bytes result ≡ folder_name (path_bytes path.entry) }
{
    match path.parent() {
        Some(folder) if !folder.as_str().is_empty() => folder,
        _ => Path::new("."),
    }
}
