//! Sectors with wrong bytes, of `silent_locate`.

ghost use Rattle.std.specs.Prelude.{◌<◌};

use qic_base::{LostSet, SECTOR, Sector};
use silent_locate::{LocateFault, Located, locate};

/// Four sectors with the same bytes in each column.
fn alike(bytes: [u8; 4]) -> [Sector; 4] {
    [
        [bytes[0]; SECTOR],
        [bytes[1]; SECTOR],
        [bytes[2]; SECTOR],
        [bytes[3]; SECTOR],
    ]
}

/// The answer for four sectors, and whether they become these.
fn located(before: [u8; 4], mask: u32, after: [u8; 4]) -> (Result<Located, LocateFault>, bool) {
    let mut sectors = alike(before);
    let answer = locate(&mut sectors, LostSet::from_mask(mask));
    (answer, sectors == alike(after))
}

#[test]
fn generator_columns_are_located(rt: HostRuntime) {
    let codeword = [0x01, 0xC0, 0xC0, 0x01];
    let last_wrong = [0x01, 0xC0, 0xC0, 0x00];
    let two_wrong = [0x01, 0xC0, 0x00, 0x00];
    let one_lost = [0xAA, 0xC0, 0xC0, 0x00];
    let two_lost = [0x55, 0xAA, 0xC0, 0x00];
    let third = Ok(Located::Wrong { place: 3 });
    let agrees = Ok(Located::Agrees);
    let mismatch = Err(LocateFault::Mismatch);
    let too_many = Err(LocateFault::TooMany { lost: 4 });
    for (before, mask, want, after) in [
        (last_wrong, 0b0000, third, codeword),
        (two_wrong, 0b0000, mismatch, two_wrong),
        (codeword, 0b0000, agrees, codeword),
        ([0x00, 0x55, 0xC0, 0xFF], 0b1011, agrees, codeword),
        (last_wrong, 0b1000, agrees, codeword),
        (one_lost, 0b0001, third, codeword),
        (two_lost, 0b0011, mismatch, two_lost),
        (last_wrong, 0b1111, too_many, last_wrong),
        (last_wrong, 0b11_0000, third, codeword),
    ] {
        assert_eq!(rt;
            located(before, mask, after),
            (want, true),
            "{before:?} at {mask}"
        );
    }
}

/// A segment of 32 sectors whose columns are the generator, from each of the places 0 to 28 on.
fn shifted_generators() -> [Sector; 32] {
    let mut sectors = [[0; SECTOR]; 32];
    for j in 0..SECTOR {
        for (i, byte) in [0x01, 0xC0, 0xC0, 0x01].iter().enumerate() {
            sectors[j % 29 + i][j] = *byte;
        }
    }
    sectors
}

/// Makes a byte of a sector wrong and has it located.
fn locate_one(sectors: &mut [Sector; 32], place: u8, lost: u32) -> Result<Located, LocateFault>
    requires { place < 32 }
{
    sectors[place as usize][place as usize * 33] ^= 0x55;
    locate(sectors, LostSet::from_mask(lost))
}

/// The same with another sector lost, the seventh behind it.
fn locate_beside_lost(sectors: &mut [Sector; 32], place: u8) -> Result<Located, LocateFault>
    requires { place < 32 }
{
    let lost = (place + 7) % 32;
    sectors[lost as usize] = [0xAA; SECTOR];
    locate_one(sectors, place, 1 << lost)
}

#[test]
fn one_wrong_byte_of_a_segment_is_located(rt: HostRuntime) {
    let segment = shifted_generators();
    let mut sectors = segment;
    for place in 0..32u8 {
        let alone = (locate_one(&mut sectors, place, 0), sectors == segment);
        let beside_lost = (locate_beside_lost(&mut sectors, place), sectors == segment);
        assert_eq!(rt;
            [alone, beside_lost],
            [(Ok(Located::Wrong { place }), true); 2]
        );
    }
}

/// Makes bytes of two sectors wrong; the answer, and whether the sectors then are as these wrong ones.
fn locate_two(
    segment: &[Sector; 32],
    place: u8,
    other: u8,
) -> (Result<Located, LocateFault>, bool) {
    let mut sectors = *segment;
    sectors[place as usize % 32][5] ^= 0x01;
    sectors[other as usize % 32][1023] ^= 0x80;
    let before = sectors;
    let answer = locate(&mut sectors, LostSet::from_mask(0));
    (answer, sectors == before)
}

#[test]
fn wrong_bytes_of_two_sectors_are_refused(rt: HostRuntime) {
    let segment = shifted_generators();
    let answers = [
        locate_two(&segment, 0, 1),
        locate_two(&segment, 3, 31),
        locate_two(&segment, 30, 31),
    ];
    assert_eq!(rt; answers, [(Err(LocateFault::Mismatch), true); 3]);
}
