//! The export of a cartridge.

ghost use Rattle.std.specs.Prelude.{◌≡◌, ◌≤◌, [], Some};
ghost use Rattle.std.specs.Vec.{vec_capacity};
ghost use Rattle.rescue_map.specs.Laws.{most_words};
ghost use Rattle.flat_dump.specs.Export.{Exports};
ghost use Rattle.flat_dump.specs.Seen.{Dumps};

use crate::segment::read_segment;
use qic_base::{
    LONGEST, SECTOR, SECTORS, Sink, SinkFailed, TRACKS, Tape, TapeFailed, push_within, write_text,
};

/// Why a dump was not written to its end.
#[derive(Clone, Copy, PartialEq, Eq)]
pub enum ExportError {
    /// The tape holds no cartridge.
    NoCartridge,
    /// A call of the tape failed.
    Tape,
    /// A write to the sink failed.
    Sink,
}

/// Reads and writes all segments, and adds their words to an empty mask.
fn export_segments<T: Tape, K: Sink>(
    tape: &mut T,
    segments_per_track: u16,
    mask: &mut Vec<u32>,
    sink: &mut K,
) -> Result<(), ExportError>
    requires size { T.means.size tape.old ≡ Some segments_per_track }
    requires long { segments_per_track ≤ LONGEST }
    requires words { most_words ≤ vec_capacity mask.old }
    requires empty { mask.old.items ≡ [] }
    ensures { Dumps T.means K.means tape.old tape.new sink.old sink.new segments_per_track mask.new.items result }
{
    let mut sectors = [[0; SECTOR]; SECTORS as usize];
    for segment in 0..TRACKS * u32::from(segments_per_track) {
        match read_segment(tape, segment, &mut sectors) {
            Ok(word) => push_within(mask, word),
            Err(TapeFailed) => return Err(ExportError::Tape),
        }
        match write_text(sectors.as_flattened(), sink) {
            Ok(()) => {}
            Err(SinkFailed) => return Err(ExportError::Sink),
        }
    }
    Ok(())
}

/// Writes the flat dump of a tape's cartridge to a sink, and makes the mask of the sectors that hold bytes: a word of 32
/// sectors for each segment. The mask has room for 6,888 words. Of the tape nothing changes. After an error a front of the
/// dump is written, and the mask holds nothing of use.
pub fn export<T: Tape, K: Sink>(
    tape: &mut T,
    mask: &mut Vec<u32>,
    sink: &mut K,
) -> Result<(), ExportError>
    requires words { most_words ≤ vec_capacity mask.old }
    ensures { Exports T.means K.means tape.old tape.new sink.old sink.new mask.new.items result }
{
    mask.clear();
    match tape.info() {
        Ok(Some(info)) => export_segments(tape, info.segments_per_track, mask, sink),
        Ok(None) => Err(ExportError::NoCartridge),
        Err(TapeFailed) => Err(ExportError::Tape),
    }
}
