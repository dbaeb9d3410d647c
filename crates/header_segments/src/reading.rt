//! A header from bytes.

ghost use Rattle.std.specs.Prelude.{◌≡◌, ◌-◌, ◌*◌, ◌<◌, ◌≤◌, ℕ, List, length, All, replicate, IfSome, IfOk, IfErr, OnErr, MatchResult};
ghost use Rattle.std.specs.Option.{option_map};
ghost use Rattle.qic_base.specs.Cartridge.{IsLength};
ghost use Rattle.cartridge_spec.specs.Header.{Holds, Shows, header_fields, profile_fields, tested, first_fault};
ghost use Rattle.cartridge_laws.specs.HeaderTerms.{field_fault, map_fault, words_in};
ghost use Rattle.header_segments.specs.Header.{header_of};
ghost use Rattle.header_segments.specs.Refusal.{IsBelow, IsFitting, foreign, refusal};

use crate::fault::HeaderFault;
use crate::fields::{
    FIRST_DATA, FIRST_HEADER, FORMAT_CODE, SECOND_HEADER, SECTOR_MAXIMUM, SIGNATURE, TRACK_MAXIMUM,
};
use crate::header::Header;
use bad_sector_map::BadMap;
use qic_base::{ForeignField, Name, Sector, TRACKS, WHOLE, read_u16, read_u32};

/// The test of a field of one byte in the first sector: a fault where the byte is another.
fn byte_fault(area: &[Sector], field: ForeignField, at: usize, value: u8) -> Option<HeaderFault>
    requires sectors { length area.now ≡ 29 }
    requires within { at < 1024 }
    ensures fault { result ≡ option_map foreign (field_fault area.now (tested field at 1 value)) }
    ensures fits { IfSome result (IsBelow field 256) }
{
    let found = area[0][at];
    if found == value {
        return None;
    }
    Some(HeaderFault::Foreign {
        field,
        value: u32::from(found),
    })
}

/// The test of a field of two bytes in the first sector.
fn number_fault(area: &[Sector], field: ForeignField, at: usize, value: u16) -> Option<HeaderFault>
    requires sectors { length area.now ≡ 29 }
    requires within { at < 1023 }
    ensures fault { result ≡ option_map foreign (field_fault area.now (tested field at 2 value)) }
    ensures fits { IfSome result (IsBelow field 65536) }
{
    let found = read_u16(&area[0], at);
    if found == value {
        return None;
    }
    Some(HeaderFault::Foreign {
        field,
        value: u32::from(found),
    })
}

/// The first field that does not have the profile's value.
fn profile_fault(area: &[Sector], segments_per_track: u16) -> Option<HeaderFault>
    requires sectors { length area.now ≡ 29 }
    requires long { IsLength segments_per_track }
    ensures fault { result ≡
        option_map foreign (first_fault area.now (profile_fields segments_per_track)) }
    ensures fits { IfSome result IsFitting }
{
    let last = TRACKS as u16 * segments_per_track - 1;
    byte_fault(area, ForeignField::FormatCode, 4, FORMAT_CODE)
        .or(number_fault(area, ForeignField::FirstHeader, 6, FIRST_HEADER))
        .or(number_fault(area, ForeignField::SecondHeader, 8, SECOND_HEADER))
        .or(number_fault(area, ForeignField::FirstData, 10, FIRST_DATA))
        .or(number_fault(area, ForeignField::LastData, 12, last))
        .or(number_fault(area, ForeignField::SegmentsPerTrack, 24, segments_per_track))
        .or(byte_fault(area, ForeignField::Tracks, 26, TRACKS as u8))
        .or(byte_fault(area, ForeignField::TrackMaximum, 28, TRACK_MAXIMUM))
        .or(byte_fault(area, ForeignField::SectorMaximum, 29, SECTOR_MAXIMUM))
}

/// The first of the segments 0 to 2 that has a bad sector.
fn marked_fault(map: &BadMap) -> Option<HeaderFault>
    requires { 3 ≤ length map.now }
    ensures fault { (area : List (List ℕ)) (segments : ℕ) → map.now ≡ words_in area segments →
        result ≡ option_map foreign (map_fault area) }
    ensures fits { IfSome result IsFitting }
{
    for segment in 0..3 {
        if map.usable(segment) != WHOLE {
            return Some(HeaderFault::Foreign {
                field: ForeignField::Map,
                value: segment,
            });
        }
    }
    None
}

fn fields_of(area: &[Sector]) -> Header
    requires { length area.now ≡ 29 }
    ensures { All (Holds area.now) (header_fields (header_of result)) }
{
    let sector = &area[0];
    let mut label = [0; 44];
    label.copy_from_slice(&sector[30..74]);
    Header {
        format_date: read_u32(sector, 14),
        write_date: read_u32(sector, 18),
        segments_per_track: read_u16(sector, 24),
        label: Name::from_bytes(&label),
        label_date: read_u32(sector, 74),
    }
}

/// Why the area is refused, where its map was read already.
fn fault_in(area: &[Sector], segments_per_track: u16, map: &BadMap) -> Option<HeaderFault>
    requires sectors { length area.now ≡ 29 }
    requires long { IsLength segments_per_track }
    requires map { map.now ≡ words_in area.now (28 * segments_per_track) }
    ensures fault { result ≡ refusal area.now segments_per_track }
    ensures fits { IfSome result IsFitting }
{
    if read_u32(&area[0], 0) != SIGNATURE {
        return Some(HeaderFault::NoSignature);
    }
    profile_fault(area, segments_per_track).or(marked_fault(map))
}

/// Reads the header and the map in a data area of 29 sectors, for a drive that reports these
/// segments per track. A refusal is the first test that fails, and leaves a map with no marks.
pub fn decode(area: &[Sector], drive_segments: u16, map: &mut BadMap) -> Result<Header, HeaderFault>
    requires sectors { length area.now ≡ 29 }
    requires long { IsLength drive_segments }
    ensures shown { IfOk result (λ header. Shows area.now (header_of header) map.new) }
    ensures fault { MatchResult result (λ _. refusal area.now drive_segments ≡ None)
        (λ fault. refusal area.now drive_segments ≡ Some fault) }
    ensures fits { IfErr result IsFitting }
    ensures unmarked { OnErr result (map.new ≡ replicate (28 * drive_segments) 0) }
{
    let segments = TRACKS * u32::from(drive_segments);
    map.read(area, segments);
    match fault_in(area, drive_segments, map) {
        Some(fault) => {
            map.reset(segments);
            Err(fault)
        }
        None => Ok(fields_of(area)),
    }
}
