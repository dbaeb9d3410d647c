//! A header as bytes.

ghost use Rattle.std.specs.Prelude.{◌≡◌, ◌-◌, ◌*◌, ℕ, length, All};
ghost use Rattle.qic_base.specs.Cartridge.{IsLength};
ghost use Rattle.cartridge_spec.specs.Header.{SpellsHeader, profile_fields};
ghost use Rattle.cartridge_laws.specs.HeaderTerms.{byte_in};
ghost use Rattle.header_segments.specs.Header.{header_of};
ghost use Rattle.cartridge_laws.specs.HeaderWriting.{FieldFits, with_fields, told_fields};

use crate::fields::{
    FIRST_DATA, FIRST_HEADER, FORMAT_CODE, SECOND_HEADER, SECTOR_MAXIMUM, SIGNATURE, TRACK_MAXIMUM,
};
use crate::header::Header;
use bad_sector_map::BadMap;
use qic_base::{SECTOR, Sector, TRACKS, write_u16, write_u32};

/// The segments under one floppy head.
const HEAD_SEGMENTS: u16 = 600;

fn clear(area: &mut [Sector])
    ensures { (k : ℕ) → byte_in area.new k ≡ 0 }
{
    for sector in area.iter_mut() {
        *sector = [0; SECTOR];
    }
}

fn write_profile(sector: &mut Sector, segments_per_track: u16)
    requires { IsLength segments_per_track }
    ensures { sector.new ≡ with_fields (profile_fields segments_per_track) sector.old }
{
    let last = TRACKS as u16 * segments_per_track - 1;
    write_u32(sector, 0, SIGNATURE);
    sector[4] = FORMAT_CODE;
    sector[5] = 0;
    write_u16(sector, 6, FIRST_HEADER);
    write_u16(sector, 8, SECOND_HEADER);
    write_u16(sector, 10, FIRST_DATA);
    write_u16(sector, 12, last);
    write_u16(sector, 24, segments_per_track);
    sector[26] = TRACKS as u8;
    sector[27] = (last / HEAD_SEGMENTS) as u8;
    sector[28] = TRACK_MAXIMUM;
    sector[29] = SECTOR_MAXIMUM;
}

fn write_told(sector: &mut Sector, header: &Header)
    ensures whole { sector.new ≡ with_fields (told_fields (header_of header.now)) sector.old }
    ensures fits { All FieldFits (told_fields (header_of header.now)) }
{
    let format_date = header.format_date;
    let write_date = header.write_date;
    let label_date = header.label_date;
    write_u32(sector, 14, format_date);
    write_u32(sector, 18, write_date);
    sector[30..74].copy_from_slice(header.label.bytes());
    write_u32(sector, 74, label_date);
}

/// Spells the header and the map in a data area of 29 sectors. All other bytes become zero.
pub fn encode(header: &Header, map: &BadMap, into: &mut [Sector])
    requires sectors { length into.old ≡ 29 }
    requires long { IsLength header.now.segments_per_track }
    requires map { length map.now ≡ 28 * header.now.segments_per_track }
    ensures { SpellsHeader (header_of header.now) map.now into.new }
{
    clear(into);
    map.write(into);
    let sector = &mut into[0];
    write_profile(sector, header.segments_per_track);
    write_told(sector, header);
}
