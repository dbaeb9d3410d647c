//! Headers as bytes, and the bytes that are refused, of `header_segments`.

ghost use Rattle.std.specs.Prelude.{◌≡◌, ◌<◌};
ghost use Rattle.qic_base.specs.Cartridge.{IsLength};

use bad_sector_map::BadMap;
use header_segments::{Header, HeaderFault, decode, encode};
use qic_base::{ForeignField, Name, NoMemory, Sector};
use std::alloc::Global;
use std::test::Fail;

const DATE: u32 = 0x3052_65C0;

/// A data area of the header.
type Area = [Sector; 29];

fn sample(segments_per_track: u16) -> Header
    ensures { result.segments_per_track ≡ segments_per_track }
{
    let mut label = [b' '; 44];
    label[0] = b'L';
    Header {
        format_date: DATE,
        write_date: DATE,
        segments_per_track,
        label: Name::from_bytes(&label),
        label_date: 0x0102_0304,
    }
}

/// Spells the header of a cartridge with no bad sector.
fn spell(alloc: Global, segments_per_track: u16, area: &mut Area) -> Result<(), NoMemory>
    requires { IsLength segments_per_track }
{
    let mut map = BadMap::new(alloc)?;
    map.reset(28 * u32::from(segments_per_track));
    encode(&sample(segments_per_track), &map, area);
    Ok(())
}

/// The header that the data show, and the number of marks in their map.
fn read(map: &mut BadMap, area: &Area, drive_segments: u16) -> (Result<Header, HeaderFault>, u32)
    requires { IsLength drive_segments }
{
    (decode(area, drive_segments, map), map.marked())
}

#[test]
fn a_header_is_written(rt: HostRuntime) -> Result<(), Fail> {
    let mut area = [[0xAA; 1024]; 29];
    spell(rt.alloc(), 3, &mut area)?;
    let want = [
        0x55, 0xAA, 0x55, 0xAA, 0x02, 0x00, 0x00, 0x00, 0x01, 0x00, 0x02, 0x00, 0x53, 0x00, 0xC0,
        0x65, 0x52, 0x30, 0xC0, 0x65, 0x52, 0x30, 0x00, 0x00, 0x03, 0x00, 0x1C, 0x00, 0x95, 0x80,
        b'L', b' ',
    ];
    let sector = &area[0];
    let label_end = [
        sector[73],
        sector[74],
        sector[77],
        sector[78],
        area[28][1023],
    ];
    assert_eq!(rt;
        (&sector[..32], label_end),
        (want.as_slice(), [b' ', 4, 1, 0, 0])
    );
    Ok(())
}

/// Spells the header of a cartridge of which three sectors are bad.
fn spell_marked(alloc: Global, area: &mut Area) -> Result<(), NoMemory> {
    let mut map = BadMap::new(alloc)?;
    map.reset(84);
    map.mark(3, 0);
    map.mark(40, 17);
    map.mark(83, 31);
    encode(&sample(3), &map, area);
    Ok(())
}

#[test]
fn a_header_and_its_map_are_read(rt: HostRuntime) -> Result<(), Fail> {
    let mut area = [[0; 1024]; 29];
    spell_marked(rt.alloc(), &mut area)?;
    let foreign = HeaderFault::Foreign {
        field: ForeignField::LastData,
        value: 83,
    };
    let mut map = BadMap::new(rt.alloc())?;
    let seen = [read(&mut map, &area, 3), read(&mut map, &area, 4)];
    assert_eq!(rt; seen, [(Ok(sample(3)), 3), (Err(foreign), 0)]);
    Ok(())
}

/// What an area shows: the bytes of the last segment and of the greatest head, the header, and the number of marks.
type Ends = ([u8; 3], (Result<Header, HeaderFault>, u32));

/// Spells the header of a cartridge, and reads it into a map.
fn ends(alloc: Global, map: &mut BadMap, segments_per_track: u16) -> Result<Ends, NoMemory>
    requires { IsLength segments_per_track }
{
    let mut area = [[0; 1024]; 29];
    spell(alloc, segments_per_track, &mut area)?;
    let sector = &area[0];
    let bytes = [sector[12], sector[13], sector[27]];
    Ok((bytes, read(map, &area, segments_per_track)))
}

fn all_ends(alloc: Global, map: &mut BadMap) -> Result<[Ends; 4], NoMemory> {
    Ok([
        ends(alloc, map, 21)?,
        ends(alloc, map, 22)?,
        ends(alloc, map, 150)?,
        ends(alloc, map, 246)?,
    ])
}

#[test]
fn the_last_segment_gives_the_head_maximum(rt: HostRuntime) -> Result<(), Fail> {
    let mut map = BadMap::new(rt.alloc())?;
    assert_eq!(rt;
        all_ends(rt.alloc(), &mut map),
        Ok([
            ([0x4B, 0x02, 0], (Ok(sample(21)), 0)),
            ([0x67, 0x02, 1], (Ok(sample(22)), 0)),
            ([0x67, 0x10, 6], (Ok(sample(150)), 0)),
            ([0xE7, 0x1A, 11], (Ok(sample(246)), 0)),
        ])
    );
    Ok(())
}

/// What is read of a header of which one byte is another.
fn read_with(
    map: &mut BadMap,
    header: &Area,
    sector: usize,
    at: u8,
    byte: u8,
) -> Result<Header, HeaderFault>
    requires { sector < 29 }
{
    let mut area = *header;
    area[sector][at as usize] = byte;
    decode(&area, 3, map)
}

/// The first of some bytes of a sector, each put in place of the header's, with which something else is read.
fn first_other(
    map: &mut BadMap,
    header: &Area,
    sector: usize,
    rows: &[(u8, u8, Result<Header, HeaderFault>)],
) -> Option<u8>
    requires { sector < 29 }
{
    for (at, byte, want) in rows {
        if read_with(map, header, sector, *at, *byte) != *want {
            return Some(*at);
        }
    }
    None
}

fn foreign(field: ForeignField, value: u32) -> Result<Header, HeaderFault> {
    Err(HeaderFault::Foreign { field, value })
}

#[test]
fn the_first_foreign_field_is_named(rt: HostRuntime) -> Result<(), Fail> {
    let mut area = [[0; 1024]; 29];
    spell(rt.alloc(), 3, &mut area)?;
    let fields = [
        (0, 0x54, Err(HeaderFault::NoSignature)),
        (3, 0, Err(HeaderFault::NoSignature)),
        (4, 3, foreign(ForeignField::FormatCode, 3)),
        (5, 9, Ok(sample(3))),
        (7, 1, foreign(ForeignField::FirstHeader, 256)),
        (8, 0, foreign(ForeignField::SecondHeader, 0)),
        (10, 3, foreign(ForeignField::FirstData, 3)),
        (12, 0x54, foreign(ForeignField::LastData, 84)),
        (24, 4, foreign(ForeignField::SegmentsPerTrack, 4)),
        (26, 20, foreign(ForeignField::Tracks, 20)),
        (27, 1, Ok(sample(3))),
        (28, 254, foreign(ForeignField::TrackMaximum, 254)),
        (29, 127, foreign(ForeignField::SectorMaximum, 127)),
    ];
    // The words of the map begin in sector 2.
    let words = [
        (0, 1, foreign(ForeignField::Map, 0)),
        (5, 1, foreign(ForeignField::Map, 1)),
        (11, 0x80, foreign(ForeignField::Map, 2)),
        (12, 1, Ok(sample(3))),
    ];
    let mut map = BadMap::new(rt.alloc())?;
    let others = [
        first_other(&mut map, &area, 0, &fields),
        first_other(&mut map, &area, 2, &words),
    ];
    assert_eq!(rt; others, [None; 2]);
    Ok(())
}
