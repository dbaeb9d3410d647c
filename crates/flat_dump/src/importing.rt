//! The import of a flat dump.

ghost use Rattle.std.specs.Prelude.{◌≡◌, ℕ, ◌+◌, ◌*◌, ◌≤◌, ◌++◌, List, length, IfOk, IfErr, IfSome, OnOk};
ghost use Rattle.qic_base.specs.Cartridge.{IsLength};
ghost use Rattle.qic_base.specs.Cause.{HasCause};
ghost use Rattle.rescue_map.specs.Laws.{most_words};
ghost use Rattle.cart_image.specs.Layout.{head_len, cells_len};
ghost use Rattle.flat_dump.specs.Import.{IsDumpOf, IsEmpty, CountsBy, GaveFew, Imports, limit};
ghost use Rattle.flat_dump.specs.Importing.{Unfinished, Ends, CountsNext, Copies, Fits, Fills, begun, lost_cells, image_with};

use crate::cells::{append_lost, write_segment};
use cart_image::making::{begin, clear, sign};
use qic_base::{
    Disk, DiskFailed, LONGEST, MOST_SEGMENTS, SECTOR, SECTORS, Source, SourceFailed, TRACKS,
};
use sector_fill::fill_sectors;

/// The bytes of a segment in a dump.
const SEGMENT_LEN: u32 = 32_768;

/// The bytes of a dump for each segment per track.
const TRACKS_LEN: u64 = 917_504;

/// What a dump was imported as: a cartridge of so many segments, of whose sectors so many are lost.
#[derive(Clone, Copy)]
pub struct Imported {
    pub segments: u32,
    pub lost: u32,
}

/// Why a dump was not imported.
#[derive(Clone, Copy)]
pub enum ImportError {
    /// So many bytes of the dump were read: all that it has, as many as no cartridge, or one more than the longest has.
    Length { bytes: u64 },
    /// A read of the dump failed.
    Source,
    /// A call of the disk failed.
    Disk,
}

/// What was copied of a dump: its first segments, whose lost sectors are counted; and all its bytes, counted.
#[derive(Clone, Copy)]
struct Copied {
    segments: u32,
    lost: u32,
    bytes: u64,
}

/// Whether a source has one byte more, as a number: 1 where it had one, which was read, and 0 at its end.
fn count_next<S: Source>(source: &mut S) -> Result<u64, SourceFailed>
    ensures counts { CountsNext S.means source.old result }
    ensures gave { GaveFew S.means source.old source.new 1 }
    ensures one { IfOk result (λ n. n ≤ 1) }
    ensures kept { S.means.keeps source.old source.new }
    ensures cause { HasCause (S.means.faults source.old) (S.means.faults source.new) result }
{
    match source.read(&mut [0]) {
        Ok(count) => Ok(count as u64),
        Err(fault) => Err(fault),
    }
}

/// Copies the segments of a dump, the last of which may be a part of one, up to so many. Of the bytes behind them one is read
/// and counted.
fn copy_segments<S: Source, D: Disk>(
    source: &mut S,
    mask: &[u32],
    most: u32,
    disk: &mut D,
) -> Result<Copied, ImportError>
    requires words { most ≤ length mask.now }
    requires few { most ≤ most_words }
    requires seen { head_len ≤ D.means.seen_len disk.old }
    ensures copies { Copies S.means D.means source.old source.new disk.old disk.new
        mask.now most result }
    ensures gave { GaveFew S.means source.old source.new (32768 * most + 1) }
    ensures few { IfOk result (λ copied. copied.lost ≤ 32 * copied.segments) }
    ensures seen { OnOk result (head_len ≤ D.means.seen_len disk.new) }
    ensures kept { S.means.keeps source.old source.new }
    ensures later { S.means.faults source.old ≤ S.means.faults source.new }
    ensures stood { OnOk result (S.means.faults source.new ≡ S.means.faults source.old) }
    ensures counts { IfErr result (λ error.
        CountsBy (S.means.faults source.old) (S.means.faults source.new) error) }
{
    let mut sectors = [[0; SECTOR]; SECTORS as usize];
    let mut copied = Copied {
        segments: 0,
        lost: 0,
        bytes: 0,
    };
    for segment in 0..most {
        let len = match fill_sectors(source, &mut sectors, 32, SEGMENT_LEN) {
            Ok(0) => return Ok(copied),
            Ok(len) => len,
            Err(SourceFailed) => return Err(ImportError::Source),
        };
        match write_segment(disk, segment, &sectors, len, mask[segment as usize]) {
            Ok(lost) => {
                copied = Copied {
                    segments: segment + 1,
                    lost: copied.lost + lost,
                    bytes: copied.bytes + u64::from(len),
                };
            }
            Err(DiskFailed) => return Err(ImportError::Disk),
        }
        if len < SEGMENT_LEN {
            return Ok(copied);
        }
    }
    match count_next(source) {
        Ok(more) => Ok(Copied {
            bytes: copied.bytes + more,
            ..copied
        }),
        Err(SourceFailed) => Err(ImportError::Source),
    }
}

/// The most segments of the cartridge.
fn most_segments(asked: Option<u16>) -> u32
    requires { IfSome asked IsLength }
    ensures few { result ≤ most_words }
    ensures limit { 32768 * result ≡ limit asked }
    ensures enough { (bytes n : ℕ) → IsLength n → IsDumpOf asked bytes n → 28 * n ≤ result }
{
    match asked {
        Some(n) => TRACKS * u32::from(n),
        None => MOST_SEGMENTS as u32,
    }
}

/// The segments per track of a dump of so many bytes: those that were asked for, where it isn't longer; or else exactly
/// those that it has. None where that is no cartridge.
fn length_of(bytes: u64, asked: Option<u16>) -> Option<u16>
    requires { IfSome asked IsLength }
    ensures { Fits asked bytes result }
{
    match asked {
        Some(n) if bytes <= TRACKS_LEN * u64::from(n) => Some(n),
        Some(_) => None,
        None => {
            let n = bytes / TRACKS_LEN;
            if bytes % TRACKS_LEN == 0 && n >= 3 && n <= u64::from(LONGEST) {
                Some(n as u16)
            } else {
                None
            }
        }
    }
}

/// Writes the sectors that a dump lacks behind its segments, and makes the file an image.
fn finish<D: Disk>(disk: &mut D, copied: u32, segments_per_track: u16) -> Result<(), DiskFailed>
    requires length { IsLength segments_per_track }
    requires order { copied ≤ 28 * segments_per_track }
    requires seen { head_len ≤ D.means.seen_len disk.old }
    ensures { (first : D) (file : List ℕ) (more : ℕ) → length file ≡ head_len + cells_len * copied →
        copied + more ≡ 28 * segments_per_track → Unfinished D.means first disk.old file →
        Ends D.means first disk.new
        (image_with segments_per_track (file ++ lost_cells more)) result }
{
    append_lost(disk, copied, TRACKS * u32::from(segments_per_track))?;
    sign(disk, segments_per_track, true)
}

/// What a dump was imported as, whose first segments were copied.
fn imported_as(copied: Copied, segments_per_track: u16) -> Imported
    requires length { IsLength segments_per_track }
    requires order { copied.segments ≤ 28 * segments_per_track }
    requires few { copied.lost ≤ 32 * copied.segments }
    ensures segments { result.segments ≡ 28 * segments_per_track }
    ensures lost { (more : ℕ) → copied.segments + more ≡ 28 * segments_per_track →
        result.lost ≡ copied.lost + 32 * more }
{
    let segments = TRACKS * u32::from(segments_per_track);
    Imported {
        segments,
        lost: copied.lost + 32 * (segments - copied.segments),
    }
}

/// Copies a dump into a file with the room of a head alone, and makes that its image.
fn fill_image<S: Source, D: Disk>(
    source: &mut S,
    mask: &[u32],
    segments_per_track: Option<u16>,
    disk: &mut D,
) -> Result<Imported, ImportError>
    requires seen { head_len ≤ D.means.seen_len disk.old }
    requires words { most_words ≤ length mask.now }
    requires asked { IfSome segments_per_track IsLength }
    ensures fills { (first : D) → Unfinished D.means first disk.old begun →
        Fills S.means D.means source.old source.new first disk.new
        mask.now segments_per_track result }
    ensures gave { GaveFew S.means source.old source.new (limit segments_per_track + 1) }
    ensures kept { S.means.keeps source.old source.new }
    ensures later { S.means.faults source.old ≤ S.means.faults source.new }
    ensures stood { OnOk result (S.means.faults source.new ≡ S.means.faults source.old) }
    ensures counts { IfErr result (λ error.
        CountsBy (S.means.faults source.old) (S.means.faults source.new) error) }
{
    let most = most_segments(segments_per_track);
    let copied = match copy_segments(source, mask, most, disk) {
        Ok(copied) => copied,
        Err(error) => return Err(error),
    };
    let bytes = copied.bytes;
    match length_of(bytes, segments_per_track) {
        Some(n) => match finish(disk, copied.segments, n) {
            Ok(()) => Ok(imported_as(copied, n)),
            Err(DiskFailed) => Err(ImportError::Disk),
        },
        None => Err(ImportError::Length { bytes }),
    }
}

/// Writes the image into an empty file.
fn write_image<S: Source, D: Disk>(
    source: &mut S,
    mask: &[u32],
    segments_per_track: Option<u16>,
    disk: &mut D,
) -> Result<Imported, ImportError>
    requires empty { IsEmpty D.means disk.old }
    requires words { most_words ≤ length mask.now }
    requires asked { IfSome segments_per_track IsLength }
    ensures fills { Fills S.means D.means source.old source.new disk.old disk.new
        mask.now segments_per_track result }
    ensures gave { GaveFew S.means source.old source.new (limit segments_per_track + 1) }
    ensures kept { S.means.keeps source.old source.new }
    ensures later { S.means.faults source.old ≤ S.means.faults source.new }
    ensures stood { OnOk result (S.means.faults source.new ≡ S.means.faults source.old) }
    ensures counts { IfErr result (λ error.
        CountsBy (S.means.faults source.old) (S.means.faults source.new) error) }
{
    match begin(disk) {
        Ok(()) => fill_image(source, mask, segments_per_track, disk),
        Err(DiskFailed) => Err(ImportError::Disk),
    }
}

/// Writes the image of a flat dump into an empty file, in one pass over the dump. Its length tells the segments per track,
/// unless they are given: then a shorter one is taken, too. No more is read of it than the longest has, and one byte. A sector is lost where the dump lacks a byte of it or the mask
/// its bit (a word of 32 sectors for each of 6,888 segments; without a map all are set). A stop leaves no image or the
/// whole one. After an error the file is empty; where the clearing fails, too, it is no image, or the whole one where the
/// write of its first byte or the sync behind it had failed.
pub fn import<S: Source, D: Disk>(
    source: &mut S,
    mask: &[u32],
    segments_per_track: Option<u16>,
    disk: &mut D,
) -> Result<Imported, ImportError>
    requires empty { IsEmpty D.means disk.old }
    requires words { most_words ≤ length mask.now }
    requires asked { IfSome segments_per_track IsLength }
    ensures imports { Imports S.means D.means source.old source.new disk.old disk.new
        mask.now segments_per_track result }
    ensures gave { GaveFew S.means source.old source.new (limit segments_per_track + 1) }
    ensures kept { S.means.keeps source.old source.new }
    ensures later { S.means.faults source.old ≤ S.means.faults source.new }
    ensures stood { OnOk result (S.means.faults source.new ≡ S.means.faults source.old) }
    ensures counts { IfErr result (λ error.
        CountsBy (S.means.faults source.old) (S.means.faults source.new) error) }
{
    match write_image(source, mask, segments_per_track, disk) {
        Ok(imported) => Ok(imported),
        Err(error) => {
            // The error tells it, too.
            let _cleared = clear(disk);
            Err(error)
        }
    }
}
