//! The files that the words name.

ghost use Rattle.std.specs.Prelude.{◌≡◌, ◌≢◌, IfOk};
ghost use Rattle.dump_spec.specs.declared.status.Status.TheVariants as ends;
ghost use Rattle.file_streams.specs.FileSink.{IsFresh};

use dump_opening::DumpFiles;
use dump_spec::{OpenedFile, Status};
use file_streams::{FileSink, FileSource};
use salvage_words::SalvageWords;
use std::fs::{File, Files};
use tape_files::{FileDisk, IfMissing, NoImage, open_image, open_to_read};

/// The files of a run, opened: those that are read, and that of the sure map, where one is asked for.
#[derive(Drop)]
pub struct OpenFiles {
    pub read: DumpFiles<FileDisk, FileSource<FileDisk>>,
    pub sure: FileSink<FileDisk>,
}

/// Which file of a run can't be opened, and why.
#[derive(Clone, Copy)]
pub struct Unopened<'a> {
    pub file: OpenedFile,
    pub path: &'a str,
    pub cause: NoImage,
}

/// How a run ends of which a file can't be opened.
pub fn refusal(file: OpenedFile, cause: NoImage) -> Status
    ensures memory { cause ≡ NoImage.NoMemory → result ≡ ends.NoMemory }
    ensures file { cause ≢ NoImage.NoMemory → result ≡ ends.CannotOpen file }
{
    match cause {
        NoImage::NoMemory => Status::NoMemory,
        _ => Status::CannotOpen { file },
    }
}

/// Opens a file that is read.
fn open_one<'a, R: Files<File = File>>(
    files: &R,
    path: &'a str,
    file: OpenedFile,
) -> Result<FileDisk, Unopened<'a>> {
    match open_to_read(files, path) {
        Ok(disk) => Ok(disk),
        Err(cause) => Err(Unopened { file, path, cause }),
    }
}

/// Opens a file that is read, where one is named.
fn open_named<'a, R: Files<File = File>>(
    files: &R,
    path: Option<&'a str>,
    file: OpenedFile,
) -> Result<Option<FileDisk>, Unopened<'a>> {
    match path {
        Some(path) => Ok(Some(open_one(files, path, file)?)),
        None => Ok(None),
    }
}

/// Opens a text, where one is named.
fn open_text<'a, R: Files<File = File>>(
    files: &R,
    path: Option<&'a str>,
    file: OpenedFile,
) -> Result<Option<FileSource<FileDisk>>, Unopened<'a>> {
    match path {
        Some(path) => Ok(Some(FileSource::new(open_one(files, path, file)?))),
        None => Ok(None),
    }
}

/// Opens the file of the sure map, where one is named; it is created where there is none.
fn open_sure<'a, R: Files<File = File> + Alloc>(
    files: &R,
    path: Option<&'a str>,
) -> Result<Option<FileDisk>, Unopened<'a>> {
    match path {
        Some(path) => match open_image(files, path, IfMissing::Create) {
            Ok(disk) => Ok(Some(disk)),
            Err(cause) => Err(Unopened {
                file: OpenedFile::Sure,
                path,
                cause,
            }),
        },
        None => Ok(None),
    }
}

/// Opens the files that the words name, one after the other. Each is locked then, those that are read against a run that would
/// write them, and that of the sure map against every other.
pub fn open_files<'a, R: Files<File = File> + Alloc>(
    files: &R,
    words: SalvageWords<'a>,
) -> Result<OpenFiles, Unopened<'a>>
    ensures fresh { IfOk result (λ files. IsFresh files.sure) }
{
    let dump = open_one(files, words.dump, OpenedFile::Dump)?;
    let map = open_text(files, words.map, OpenedFile::Map)?;
    let header = open_named(files, words.header, OpenedFile::Header)?;
    let missing = open_text(files, words.missing, OpenedFile::Missing)?;
    let bad = open_text(files, words.bad, OpenedFile::Bad)?;
    let sure = open_sure(files, words.sure)?;
    Ok(OpenFiles {
        read: DumpFiles {
            dump,
            map,
            header,
            missing,
            bad,
        },
        sure: FileSink::new(sure),
    })
}
