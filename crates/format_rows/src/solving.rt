//! Lost sectors that are found, of `erasure_solve`.

ghost use Rattle.std.specs.Prelude.{◌≡◌, ◌<◌};
ghost use Rattle.erasure_solve.specs.Plan.{planned_count, IsPlan};

use erasure_solve::{Plan, SolveFault, consistent, solve};
use qic_base::{LostSet, SECTOR, Sector};

/// Four sectors with the same bytes in each column.
fn alike(bytes: [u8; 4]) -> [Sector; 4] {
    [
        [bytes[0]; SECTOR],
        [bytes[1]; SECTOR],
        [bytes[2]; SECTOR],
        [bytes[3]; SECTOR],
    ]
}

/// Four sectors with these bytes in the last column, and zeros before it.
fn alone(bytes: [u8; 4]) -> [Sector; 4] {
    let mut sectors = [[0; SECTOR]; 4];
    for (i, byte) in bytes.iter().enumerate() {
        sectors[i][SECTOR - 1] = *byte;
    }
    sectors
}

/// The answer for four sectors, and whether they become these.
fn solved(
    mut sectors: [Sector; 4],
    mask: u32,
    after: &[Sector; 4],
) -> (Result<(), SolveFault>, bool) {
    let answer = solve(&mut sectors, LostSet::from_mask(mask));
    (answer, sectors == *after)
}

#[test]
fn generator_columns_are_solved(rt: HostRuntime) {
    let codeword = [0x01, 0xC0, 0xC0, 0x01];
    let other = [0x01, 0xC0, 0xC0, 0x00];
    let too_many = Err(SolveFault::TooMany { lost: 4 });
    for (before, mask, want, after) in [
        ([0x00, 0x55, 0xC0, 0xFF], 0b1011, Ok(()), codeword),
        ([0x01, 0x00, 0xC0, 0x01], 0b0010, Ok(()), codeword),
        (codeword, 0b0000, Ok(()), codeword),
        (codeword, 0b1111, too_many, codeword),
        (other, 0b0001, Err(SolveFault::Mismatch), other),
        (other, 0b0000, Err(SolveFault::Mismatch), other),
        (other, 0b1000, Ok(()), codeword),
    ] {
        let seen = [
            solved(alike(before), mask, &alike(after)),
            solved(alone(before), mask, &alone(after)),
        ];
        assert_eq!(rt; seen, [(want, true); 2], "at {mask}");
    }
    let blocks = [
        consistent(&alike(codeword)),
        consistent(&alone(codeword)),
        consistent(&alike(other)),
        consistent(&alone(other)),
    ];
    assert_eq!(rt; blocks, [true, true, false, false]);
}

/// Whether a plan agrees with four sectors and makes them these.
fn fills(plan: &Plan, before: [u8; 4], after: [u8; 4]) -> bool
    requires plan { IsPlan plan.now }
    requires count { planned_count plan.now ≡ 4 }
{
    let mut sectors = alike(before);
    if !plan.agrees(&sectors) {
        return false;
    }
    plan.fill(&mut sectors);
    sectors == alike(after)
}

/// What a plan for four sectors tells where the places 0, 1 and 3 are lost: for how many sectors it is, which are lost,
/// and whether it fills one segment after another.
fn of_three() -> Result<(u8, LostSet, [bool; 2]), SolveFault> {
    let plan = Plan::new(4, LostSet::from_mask(0b1011))?;
    let filled = [
        fills(&plan, [0x00, 0x55, 0xC0, 0xFF], [0x01, 0xC0, 0xC0, 0x01]),
        fills(&plan, [0x01, 0x02, 0x00, 0x03], [0x00, 0x00, 0x00, 0x00]),
    ];
    Ok((plan.count(), plan.lost(), filled))
}

/// With which segments a plan agrees where the place 0 is lost.
fn of_one() -> Result<[bool; 2], SolveFault> {
    let plan = Plan::new(4, LostSet::from_mask(0b0001))?;
    Ok([
        plan.agrees(&alike([0x55, 0xC0, 0xC0, 0x01])),
        plan.agrees(&alike([0x01, 0xC0, 0xC0, 0x00])),
    ])
}

#[test]
fn one_plan_serves_segment_after_segment(rt: HostRuntime) {
    let too_many = Plan::new(4, LostSet::from_mask(0b1111)).err();
    assert_eq!(rt;
        (too_many, of_three(), of_one()),
        (
            Some(SolveFault::TooMany { lost: 4 }),
            Ok((4, LostSet::from_mask(0b1011), [true, true])),
            Ok([true, false]),
        )
    );
}

/// A segment of 32 sectors whose columns are the generator, from each of the places 0 to 28 on.
fn shifted_generators() -> [Sector; 32] {
    let mut sectors = [[0; SECTOR]; 32];
    for j in 0..SECTOR {
        for (i, byte) in [0x01, 0xC0, 0xC0, 0x01].iter().enumerate() {
            sectors[j % 29 + i][j] = *byte;
        }
    }
    sectors
}

/// Overwrites three sectors of a segment, and has them found again.
fn found(sectors: &mut [Sector; 32], a: u8, b: u8, c: u8) -> Result<(), SolveFault>
    requires first { a < 32 }
    requires second { b < 32 }
    requires third { c < 32 }
{
    sectors[a as usize] = [0xAA; SECTOR];
    sectors[b as usize] = [0x55; SECTOR];
    sectors[c as usize] = [0xFF; SECTOR];
    solve(sectors, LostSet::from_mask(1 << a | 1 << b | 1 << c))
}

/// The first three places of a segment whose sectors are not found again.
fn first_not_found(segment: &[Sector; 32]) -> Option<[u8; 3]> {
    let mut sectors = *segment;
    for a in 0..32u8 {
        for b in 0..a {
            for c in 0..b {
                if found(&mut sectors, a, b, c) != Ok(()) || sectors != *segment {
                    return Some([a, b, c]);
                }
            }
        }
    }
    None
}

#[test]
fn lost_sectors_of_a_segment_are_found(rt: HostRuntime) {
    assert_eq!(rt; first_not_found(&shifted_generators()), None);
}
