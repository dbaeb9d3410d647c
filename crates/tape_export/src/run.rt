//! A run over opened files.

ghost use Rattle.std.specs.Prelude.{◌≡◌, ◌≢◌, ◌≤◌, ◌⊎◌, [], Err, IfErr, IfSome, OnOk};
ghost use Rattle.std.specs.Vec.{vec_capacity};
ghost use Rattle.rescue_map.specs.Laws.{most_words};
ghost use Rattle.file_streams.specs.FileSink.{Called, IsFresh, LookBroke, bytes_of};
ghost use Rattle.qic_base.specs.Disk.{Look};
ghost use Rattle.tape_export.specs.Files.{Exports};
ghost use Rattle.tape_export.specs.Runs.{Runs};

use crate::status::ExportStatus;
use file_streams::FileSink;
use flat_dump::{ExportError, export};
use qic_base::{Disk, DiskFailed, Sink, SinkFailed, Tape};
use rescue_map::write_map;
use std::io::ErrorKind;

/// The status of a run whose words could not be had: there was no memory for them, or one is no UTF-8 text, so none of
/// the words that the command takes.
pub fn unread(kind: ErrorKind) -> ExportStatus
    ensures memory { kind ≡ ErrorKind.OutOfMemory → result ≡ ExportStatus.NoMemory }
    ensures usage { kind ≢ ErrorKind.OutOfMemory → result ≡ ExportStatus.Usage }
{
    match kind {
        ErrorKind::OutOfMemory => ExportStatus::NoMemory,
        _ => ExportStatus::Usage,
    }
}

/// A file with a byte is refused, and one whose length can't be had.
fn require_empty<D: Disk + Drop>(chart: &mut FileSink<D>) -> Result<(), ExportStatus>
    requires { IsFresh chart.old }
    ensures empty { OnOk result (IfSome (bytes_of D.means chart.new) (λ bytes. bytes ≡ [])) }
    ensures begun { OnOk result (IfSome (bytes_of D.means chart.old) (λ bytes. bytes ≡ [])) }
    ensures fresh { OnOk result (IsFresh chart.new) }
    ensures looked { OnOk result (Called D.means Look chart.old chart.new) }
    ensures kept { result ≡ Err ExportStatus.NotEmpty → Called D.means Look chart.old chart.new }
    ensures not_empty { result ≡ Err ExportStatus.NotEmpty →
        IfSome (bytes_of D.means chart.old) (λ bytes. bytes ≢ []) }
    ensures failed { result ≡ Err ExportStatus.SinkFault →
        LookBroke D.means chart.old chart.new }
    ensures only { IfErr result (λ cause.
        (cause ≡ ExportStatus.NotEmpty) ⊎ (cause ≡ ExportStatus.SinkFault)) }
{
    match chart.is_empty() {
        Ok(true) => Ok(()),
        Ok(false) => Err(ExportStatus::NotEmpty),
        Err(DiskFailed) => Err(ExportStatus::SinkFault),
    }
}

/// Writes the flat dump of a tape's cartridge, and then its map. The mask has room for 6,888 words.
pub fn run_export<T: Tape, K: Sink, M: Sink>(
    mask: &mut Vec<u32>,
    tape: &mut T,
    dump: &mut K,
    chart: &mut M,
) -> ExportStatus
    requires words { most_words ≤ vec_capacity mask.old }
    ensures { Runs T.means K.means M.means
        record { tape = tape.old; dump = dump.old; chart = chart.old }
        record { tape = tape.new; dump = dump.new; chart = chart.new } result }
{
    match export(tape, mask, dump) {
        Ok(()) => match write_map(mask, chart) {
            Ok(()) => ExportStatus::Done,
            Err(SinkFailed) => ExportStatus::SinkFault,
        },
        Err(ExportError::NoCartridge) => ExportStatus::NoCartridge,
        Err(ExportError::Tape) => ExportStatus::TapeFault,
        Err(ExportError::Sink) => ExportStatus::SinkFault,
    }
}

/// Does that where the file of the map is empty, or none is asked for, and puts the map on the disk.
pub fn export_files<T: Tape, K: Sink, D: Disk + Drop>(
    mask: &mut Vec<u32>,
    tape: &mut T,
    dump: &mut K,
    chart: &mut FileSink<D>,
) -> ExportStatus
    requires words { most_words ≤ vec_capacity mask.old }
    requires fresh { IsFresh chart.old }
    ensures { Exports T.means K.means D.means
        record { tape = tape.old; dump = dump.old; chart = chart.old }
        record { tape = tape.new; dump = dump.new; chart = chart.new } result }
{
    if let Err(status) = require_empty(chart) {
        return status;
    }
    match run_export(mask, tape, dump, chart) {
        ExportStatus::Done => match chart.sync() {
            Ok(()) => ExportStatus::Done,
            Err(DiskFailed) => ExportStatus::SinkFault,
        },
        status => status,
    }
}
