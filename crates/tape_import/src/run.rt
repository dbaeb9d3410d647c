//! A run over opened files.

ghost use Rattle.std.specs.Prelude.{◌≡◌, ◌≢◌, ◌+◌, true, IfSome};
ghost use Rattle.qic_base.specs.Cartridge.{IsLength};
ghost use Rattle.qic_base.specs.Disk.{IsSettled};
ghost use Rattle.flat_dump.specs.Import.{GaveFew, IsEmpty, limit};
ghost use Rattle.tape_import.specs.Runs.{Filled, Found, Masks, Runs};

use crate::status::{ImportStatus, write_imported};
use cart_image::making::clear;
use flat_dump::{ImportError, import};
use qic_base::{Disk, DiskFailed, MOST_SEGMENTS, Sink, SinkFailed, Source, WHOLE};
use rescue_map::{MapError, read_map};
use std::io::ErrorKind;

/// The bytes of a map that are read at a time.
const MAP_ROOM: usize = 4096;

/// The status of a run whose words could not be had: there was no memory for them, or one is no UTF-8 text, so none of
/// the words that the command takes.
pub fn unread(kind: ErrorKind) -> ImportStatus
    ensures memory { kind ≡ ErrorKind.OutOfMemory → result ≡ ImportStatus.NoMemory }
    ensures usage { kind ≢ ErrorKind.OutOfMemory → result ≡ ImportStatus.Usage }
{
    match kind {
        ErrorKind::OutOfMemory => ImportStatus::NoMemory,
        _ => ImportStatus::Usage,
    }
}

/// A file with a byte is refused, and one whose length can't be had.
fn require_empty<D: Disk>(disk: &mut D) -> Result<(), ImportStatus>
    requires { D.means.tells_stops disk.old ≡ true → IsSettled D.means disk.old }
    ensures { Found D.means disk.old disk.new result }
{
    match disk.len() {
        Ok(0) => Ok(()),
        Ok(_) => Err(ImportStatus::NotEmpty),
        Err(DiskFailed) => Err(ImportStatus::DiskFault),
    }
}

/// Makes the mask of the sectors that were rescued: as the map says, or of all where there is none.
fn fill_mask<M: Source>(
    chart: &mut Option<M>,
    mask: &mut [u32; MOST_SEGMENTS],
) -> Result<(), ImportStatus>
    ensures { Masks M.means chart.old chart.new mask.new result }
{
    match chart {
        Some(source) => match read_map(source, &mut [0; MAP_ROOM], mask) {
            Ok(()) => Ok(()),
            Err(MapError::Fault { line }) => Err(ImportStatus::MapFault { line }),
            Err(MapError::Source) => Err(ImportStatus::SourceFault),
        },
        None => {
            *mask = [WHOLE; MOST_SEGMENTS];
            Ok(())
        }
    }
}

/// Imports a dump into an empty file by a mask, and tells it. Where that can't be told the file is emptied.
fn import_by<S: Source, D: Disk, K: Sink>(
    segments_per_track: Option<u16>,
    mask: &[u32; MOST_SEGMENTS],
    dump: &mut S,
    disk: &mut D,
    told: &mut K,
) -> ImportStatus
    requires empty { IsEmpty D.means disk.old }
    requires asked { IfSome segments_per_track IsLength }
    ensures filled { Filled S.means D.means K.means mask.now segments_per_track dump.old dump.new
        disk.old disk.new told.old told.new result }
    ensures few { GaveFew S.means dump.old dump.new (limit segments_per_track + 1) }
{
    match import(dump, mask, segments_per_track, disk) {
        Ok(imported) => match write_imported(imported, told) {
            Ok(()) => ImportStatus::Done,
            Err(SinkFailed) => {
                // The status tells it, too.
                let _emptied = clear(disk);
                ImportStatus::SinkFault
            }
        },
        Err(ImportError::Length { bytes }) => ImportStatus::Length { bytes },
        Err(ImportError::Source) => ImportStatus::SourceFault,
        Err(ImportError::Disk) => ImportStatus::DiskFault,
    }
}

/// Imports a dump and its map, where there is one, into an empty file, and tells it. The segments per track are asked for,
/// 3 to 246, or the dump's length tells them.
pub fn run_import<M: Source, S: Source, D: Disk, K: Sink>(
    segments_per_track: Option<u16>,
    chart: &mut Option<M>,
    dump: &mut S,
    disk: &mut D,
    told: &mut K,
) -> ImportStatus
    requires settled { D.means.tells_stops disk.old ≡ true → IsSettled D.means disk.old }
    requires asked { IfSome segments_per_track IsLength }
    ensures { Runs M.means S.means D.means K.means segments_per_track
        record { chart = chart.old; dump = dump.old; image = disk.old; told = told.old }
        record { chart = chart.new; dump = dump.new; image = disk.new; told = told.new } result }
{
    if let Err(status) = require_empty(disk) {
        return status;
    }
    let mut mask = [0; MOST_SEGMENTS];
    match fill_mask(chart, &mut mask) {
        Ok(()) => import_by(segments_per_track, &mask, dump, disk, told),
        Err(status) => status,
    }
}
