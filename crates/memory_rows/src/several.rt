//! Several sectors of a segment written and read in one call of a tape in memory, and what such a call leaves that
//! fails. A segment is formatted whose sector 3 is a defect and whose sector 4 is lost; the next one was never
//! formatted.

ghost use Rattle.std.specs.Prelude.{◌≡◌, ◌<◌, Some, IfOk, OnOk};
ghost use Rattle.qic_mem.specs.Tape.{tape_means};

use qic_base::{LostSet, Sector, Tape, TapeFailed};
use qic_mem::{MemTape, Outcome, SureTape};
use std::alloc::Global;
use std::test::Fail;

/// 32 sectors, each of its number, counted from 1.
fn numbered() -> [Sector; 32] {
    let mut sectors = [[0; 1024]; 32];
    for i in 0..32 {
        sectors[i as usize] = [i + 1; 1024];
    }
    sectors
}

/// Makes the cartridge, by four calls of the tape.
fn begin(tape: &mut MemTape) -> Result<(), TapeFailed>
    ensures { OnOk result (tape_means.size tape.new ≡ Some 3) }
{
    tape.renew(3)?;
    tape.spoil(0, 3)?;
    tape.format_segment(0)?;
    tape.wear(0, 4)
}

/// A recorded tape with the cartridge. Its next call fails, and leaves the outcome.
fn about_to_fail(alloc: Global, outcome: Outcome) -> Result<MemTape, Fail>
    ensures { IfOk result (λ tape. tape_means.size tape ≡ Some 3) }
{
    let mut tape = MemTape::recorded(alloc, 3, 5, [4].to_vec(alloc)?)?;
    begin(&mut tape)?;
    tape.set_outcome(outcome);
    Ok(tape)
}

/// The masks of the sectors that are good, and of those that were never formatted, or that the read failed; and the
/// last bytes of the first six entries that it read into, which were 99.
type Found = (Result<(u32, u32), TapeFailed>, [u8; 6]);

/// What a read of the sectors 0 to 4 of a segment finds.
fn found(tape: &mut MemTape, segment: u32) -> Found
    requires size { tape_means.size tape.old ≡ Some 3 }
    requires segment { segment < 84 }
    ensures { tape_means.size tape.new ≡ Some 3 }
{
    let mut into = [[99; 1024]; 32];
    let masks = match tape.read_sectors(segment, LostSet::from_mask(0b1_1111), &mut into) {
        Ok(read) => Ok((read.good.mask(), read.blank.mask())),
        Err(fault) => Err(fault),
    };
    let last = [
        into[0][1023],
        into[1][1023],
        into[2][1023],
        into[3][1023],
        into[4][1023],
        into[5][1023],
    ];
    (masks, last)
}

/// The mask of the sectors that were never formatted, of those of a segment that are written with their numbers.
fn write(tape: &mut MemTape, segment: u32, written: u32) -> Result<u32, TapeFailed>
    requires size { tape_means.size tape.old ≡ Some 3 }
    requires segment { segment < 84 }
    ensures { tape_means.size tape.new ≡ Some 3 }
{
    match tape.write_sectors(segment, LostSet::from_mask(written), &numbered()) {
        Ok(blank) => Ok(blank.mask()),
        Err(fault) => Err(fault),
    }
}

/// What is found in the formatted segment at first.
const AS_FORMATTED: Found = (Ok((0b111, 0)), [0, 0, 0, 99, 99, 99]);

type Written = (Found, Result<u32, TapeFailed>, Found);

/// What is found before and after a write of the sectors 1, 3, 4 and 5 of a segment.
fn write_four(tape: &mut MemTape, segment: u32) -> Written
    requires size { tape_means.size tape.old ≡ Some 3 }
    requires segment { segment < 84 }
    ensures { tape_means.size tape.new ≡ Some 3 }
{
    (
        found(tape, segment),
        write(tape, segment, 0b11_1010),
        found(tape, segment),
    )
}

fn write_both(tape: &mut MemTape) -> Result<[Written; 2], TapeFailed> {
    begin(tape)?;
    Ok([write_four(tape, 0), write_four(tape, 1)])
}

#[test]
fn sectors_are_written_and_read_in_one_call(rt: HostRuntime) -> Result<(), Fail> {
    let mut tape = MemTape::new(rt.alloc(), 3, Vec::new(rt.alloc()))?;
    let seen = write_both(&mut tape);
    let blank = (Ok((0, 0b1_1111)), [99; 6]);
    let written = (Ok((0b1_0111, 0)), [0, 2, 0, 99, 5, 99]);
    assert_eq!(rt;
        seen,
        Ok([
            (AS_FORMATTED, Ok(0), written),
            (blank, Ok(0b11_1010), blank)
        ])
    );
    Ok(())
}

/// The answer of a failing write of the sectors 0, 1, 3 and 4, and what it leaves.
fn left_by(alloc: Global, outcome: Outcome) -> Result<(Result<u32, TapeFailed>, Found), Fail> {
    let mut tape = about_to_fail(alloc, outcome)?;
    Ok((write(&mut tape, 0, 0b1_1011), found(&mut tape, 0)))
}

#[test]
fn a_failing_write_of_several_leaves_its_outcome(rt: HostRuntime) -> Result<(), Fail> {
    let left = [
        left_by(rt.alloc(), Outcome::Old)?,
        left_by(rt.alloc(), Outcome::Lost)?,
        left_by(rt.alloc(), Outcome::New)?,
    ];
    assert_eq!(rt;
        left,
        [
            (Err(TapeFailed), AS_FORMATTED),
            (Err(TapeFailed), (Ok((0b100, 0)), [99, 99, 0, 99, 99, 99])),
            (Err(TapeFailed), (Ok((0b1_0111, 0)), [1, 2, 0, 99, 5, 99])),
        ]
    );
    Ok(())
}

/// What a read that fails finds, and then one that doesn't.
fn read_twice(alloc: Global) -> Result<[Found; 2], Fail> {
    let mut tape = about_to_fail(alloc, Outcome::New)?;
    Ok([found(&mut tape, 0), found(&mut tape, 0)])
}

#[test]
fn a_failing_read_of_several_gives_no_byte(rt: HostRuntime) -> Result<(), Fail> {
    let seen = read_twice(rt.alloc())?;
    assert_eq!(rt; seen, [(Err(TapeFailed), [99; 6]), AS_FORMATTED]);
    Ok(())
}

/// The masks of the last sectors of the longest cartridge that took no write, that are good, and that were never
/// formatted, and the last bytes of the last two entries, of which the second one was written.
fn last_of_longest(tape: &mut SureTape) -> Result<(u32, u32, u32, [u8; 2]), TapeFailed> {
    tape.renew(246)?;
    tape.format_segment(6887)?;
    let blank = tape.write_sectors(6887, LostSet::from_mask(1 << 31), &numbered())?;
    let mut into = [[99; 1024]; 32];
    let read = tape.read_sectors(6887, LostSet::from_mask(0b11 << 30), &mut into)?;
    let last = [into[30][1023], into[31][1023]];
    Ok((blank.mask(), read.good.mask(), read.blank.mask(), last))
}

#[test]
fn a_sure_tape_reads_and_writes_several(rt: HostRuntime) -> Result<(), Fail> {
    let mut tape = SureTape::new(rt.alloc())?;
    let seen = last_of_longest(&mut tape);
    assert_eq!(rt; seen, Ok((0, 0b11 << 30, 0, [0, 32])));
    Ok(())
}
