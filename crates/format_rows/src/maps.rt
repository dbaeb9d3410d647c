//! Bad sector maps and their words, of `bad_sector_map`.

ghost use Rattle.std.specs.Prelude.{◌<◌};

use bad_sector_map::BadMap;
use qic_base::{NoMemory, Sector, write_u32};
use std::alloc::Global;
use std::test::Fail;

/// A data area of the header.
type Area = [Sector; 29];

/// Writes the map of a cartridge of 2,800 segments with three marks. Answers the number of marks.
fn write_three(alloc: Global, area: &mut Area) -> Result<u32, NoMemory> {
    let mut map = BadMap::new(alloc)?;
    map.reset(2800);
    map.mark(0, 0);
    map.mark(1400, 9);
    map.mark(2799, 31);
    map.write(area);
    Ok(map.marked())
}

/// What the map of 2,800 segments tells: the number of marks, and the masks of four segments.
fn read_three(alloc: Global, area: &Area) -> Result<(u32, [u32; 4]), NoMemory> {
    let mut map = BadMap::new(alloc)?;
    map.read(area, 2800);
    let usable = [
        map.usable(0),
        map.usable(1400),
        map.usable(2799),
        map.usable(1401),
    ];
    Ok((map.marked(), usable))
}

#[test]
fn marks_are_written_and_read(rt: HostRuntime) -> Result<(), Fail> {
    let mut area = [[0xAA; 1024]; 29];
    let written = write_three(rt.alloc(), &mut area)?;
    let bytes = [
        [area[1][1023], area[2][0], area[2][1]],
        [area[7][480], area[7][481], area[7][482]],
        [area[12][958], area[12][959], area[12][960]],
    ];
    let read = read_three(rt.alloc(), &area)?;
    let usable = [0xFFFF_FFFE, 0xFFFF_FDFF, 0x7FFF_FFFF, 0xFFFF_FFFF];
    assert_eq!(rt;
        (written, bytes, read),
        (3, [[0xAA, 1, 0], [0, 2, 0], [0, 0x80, 0xAA]], (3, usable))
    );
    Ok(())
}

/// Writes the map of the longest cartridge with two marks in its last segment.
fn write_longest(alloc: Global, area: &mut Area) -> Result<(), NoMemory> {
    let mut map = BadMap::new(alloc)?;
    map.reset(6888);
    map.mark(6887, 0);
    map.mark(6887, 31);
    map.write(area);
    Ok(())
}

/// The mask of a segment and its bytes of data, by the map of the longest cartridge in the area.
fn read_back(map: &mut BadMap, area: &Area, segment: u32) -> (u32, u32)
    requires { segment < 6888 }
{
    map.read(area, 6888);
    (map.usable(segment), map.capacity(segment))
}

/// That of the last segment and of the one before, and the number of marks.
fn read_longest(alloc: Global, area: &Area) -> Result<([(u32, u32); 2], u32), NoMemory> {
    let mut map = BadMap::new(alloc)?;
    let read = [
        read_back(&mut map, area, 6887),
        read_back(&mut map, area, 6886),
    ];
    Ok((read, map.marked()))
}

#[test]
fn the_longest_map_ends_in_the_area(rt: HostRuntime) -> Result<(), Fail> {
    let mut area = [[0xAA; 1024]; 29];
    write_longest(rt.alloc(), &mut area)?;
    let read = read_longest(rt.alloc(), &area)?;
    assert_eq!(rt;
        (&area[28][923..929], read),
        (
            [0, 1, 0, 0, 0x80, 0xAA].as_slice(),
            ([(0x7FFF_FFFE, 27_648), (0xFFFF_FFFF, 29_696)], 2),
        )
    );
    Ok(())
}

/// The bytes that the segments behind the table's carry, of the longest cartridge with no mark.
fn bytes_of_longest(alloc: Global) -> Result<u64, NoMemory> {
    let mut map = BadMap::new(alloc)?;
    map.reset(6888);
    let mut bytes = 0u64;
    for segment in 3..6888 {
        bytes = bytes.wrapping_add(u64::from(map.capacity(segment)));
    }
    Ok(bytes)
}

#[test]
fn the_longest_cartridge_carries_204_456_960_bytes(rt: HostRuntime) -> Result<(), Fail> {
    assert_eq!(rt; bytes_of_longest(rt.alloc())?, 204_456_960);
    Ok(())
}

/// Reads a map whose word of segment 260 is this one: the number of marks, and the bytes of data of that segment and of
/// the one before.
fn read_word(map: &mut BadMap, word: u32) -> [u32; 3] {
    let mut area = [[0; 1024]; 29];
    write_u32(&mut area[3], 16, word);
    map.read(&area, 2800);
    [map.marked(), map.capacity(260), map.capacity(259)]
}

#[test]
fn three_usable_sectors_carry_nothing(rt: HostRuntime) -> Result<(), Fail> {
    let mut map = BadMap::new(rt.alloc())?;
    let read = [
        read_word(&mut map, 0),
        read_word(&mut map, 0x8000_0001),
        read_word(&mut map, 0x0FFF_FFFF),
        read_word(&mut map, 0x1FFF_FFFF),
        read_word(&mut map, 0xFFFF_FFFF),
    ];
    assert_eq!(rt;
        read,
        [
            [0, 29_696, 29_696],
            [2, 27_648, 29_696],
            [28, 1024, 29_696],
            [29, 0, 29_696],
            [32, 0, 29_696],
        ]
    );
    Ok(())
}
