//! Tapes in memory: what they keep, and what a call that fails leaves.

ghost use Rattle.std.specs.Prelude.{◌≡◌, ◌<◌, Some, IfOk, OnOk};
ghost use Rattle.qic_mem.specs.Tape.{tape_means};

use qic_base::{
    NoMemory, SectorRead, SectorWrite, Tape, TapeFailed, TapeInfo, read_sector, write_sector,
};
use qic_mem::{MemTape, Outcome, SureTape};
use std::alloc::Global;
use std::test::Fail;

/// A tape with room for a cartridge of three segments per track. `fails` has the numbers of its calls that fail.
fn tape(alloc: Global, fails: &[u64]) -> Result<MemTape, NoMemory> {
    MemTape::new(alloc, 3, fails.to_vec(alloc)?)
}

/// What is known of the cartridge, or that the call for it failed.
type Info = Result<Option<TapeInfo>, TapeFailed>;

fn marked(both: bool) -> Info {
    Ok(Some(TapeInfo {
        segments_per_track: 3,
        protected: both,
        referenced: both,
    }))
}

/// What is found in a sector, or that the read failed, and the first and the last byte of what it read into, which were
/// 1.
type Found = (Result<SectorRead, TapeFailed>, u8, u8);

const LOST: Found = (Ok(SectorRead::Lost), 1, 1);

const BLANK: Found = (Ok(SectorRead::Blank), 1, 1);

fn good(byte: u8) -> Found {
    (Ok(SectorRead::Good), byte, byte)
}

/// What a read of a sector finds.
fn found(tape: &mut MemTape, segment: u32, sector: u8) -> Found
    requires size { tape_means.size tape.old ≡ Some 3 }
    requires segment { segment < 84 }
    requires sector { sector < 32 }
    ensures { tape_means.size tape.new ≡ Some 3 }
{
    let mut into = [1; 1024];
    (
        read_sector(tape, segment, sector, &mut into),
        into[0],
        into[1023],
    )
}

type Marks = (Info, Result<(), TapeFailed>, Result<(), TapeFailed>, Info);

/// What an empty drive tells, the answers to both marks of a new cartridge, and what the drive tells then.
fn mark_new(tape: &mut MemTape) -> Result<Marks, TapeFailed> {
    let empty = tape.info();
    tape.renew(3)?;
    Ok((
        empty,
        tape.set_referenced(),
        tape.set_protected(true),
        tape.info(),
    ))
}

#[test]
fn a_tape_holds_a_cartridge(rt: HostRuntime) -> Result<(), Fail> {
    let mut tape = tape(rt.alloc(), &[])?;
    let seen = mark_new(&mut tape);
    assert_eq!(rt; seen, Ok((Ok(None), Ok(()), Ok(()), marked(true))));
    Ok(())
}

type Written = (Result<SectorWrite, TapeFailed>, Found);

/// The answer to a write of sevens to the last sector, and what is found there then.
fn written(tape: &mut MemTape) -> Written
    requires { tape_means.size tape.old ≡ Some 3 }
    ensures { tape_means.size tape.new ≡ Some 3 }
{
    (write_sector(tape, 83, 31, &[7; 1024]), found(tape, 83, 31))
}

/// What the last sectors of a cartridge are, one after another, and the answers to what is done to them.
type LastSectors = (
    Written,
    Result<bool, TapeFailed>,
    Result<(), TapeFailed>,
    [Found; 2],
    Written,
    Result<(), TapeFailed>,
    Found,
);

fn keep(tape: &mut MemTape) -> Result<LastSectors, TapeFailed> {
    tape.renew(3)?;
    Ok((
        written(tape),
        tape.spoil(83, 30),
        tape.format_segment(83),
        [found(tape, 83, 30), found(tape, 83, 31)],
        written(tape),
        tape.wear(83, 31),
        found(tape, 83, 31),
    ))
}

#[test]
fn a_tape_keeps_its_sectors(rt: HostRuntime) -> Result<(), Fail> {
    let mut tape = tape(rt.alloc(), &[])?;
    let kept = keep(&mut tape);
    assert_eq!(rt;
        kept,
        Ok((
            (Ok(SectorWrite::Blank), BLANK),
            Ok(true),
            Ok(()),
            [LOST, good(0)],
            (Ok(SectorWrite::Taken), good(7)),
            Ok(()),
            LOST,
        ))
    );
    Ok(())
}

type Around = (
    Result<(), TapeFailed>,
    Result<SectorWrite, TapeFailed>,
    Found,
    Result<(), TapeFailed>,
);

/// The answers to a format and a write, what is found then, and the answer to a cartridge that is too long.
fn use_tape(tape: &mut MemTape) -> Result<Around, TapeFailed> {
    tape.renew(3)?;
    Ok((
        tape.format_segment(0),
        write_sector(tape, 0, 0, &[7; 1024]),
        found(tape, 0, 0),
        tape.renew(4),
    ))
}

#[test]
fn a_tape_fails_at_its_chosen_call_alone(rt: HostRuntime) -> Result<(), Fail> {
    let mut tape = tape(rt.alloc(), &[2])?;
    let seen = use_tape(&mut tape);
    assert_eq!(rt;
        seen,
        Ok((Ok(()), Err(TapeFailed), good(0), Err(TapeFailed)))
    );
    Ok(())
}

/// Puts in a cartridge of three segments per track, formats its first segment and writes sevens to the first sector, by
/// three calls.
fn begin(tape: &mut MemTape) -> Result<(), TapeFailed>
    ensures { OnOk result (tape_means.size tape.new ≡ Some 3) }
{
    tape.renew(3)?;
    let _ = tape.format_segment(0);
    let _ = write_sector(tape, 0, 0, &[7; 1024]);
    Ok(())
}

/// A recorded tape with one formatted segment, whose sector 0 holds sevens. Its next call fails, and leaves the
/// outcome.
fn about_to_fail(alloc: Global, outcome: Outcome) -> Result<MemTape, Fail>
    ensures { IfOk result (λ tape. tape_means.size tape ≡ Some 3) }
{
    let mut tape = MemTape::recorded(alloc, 3, 4, [3].to_vec(alloc)?)?;
    begin(&mut tape)?;
    tape.set_outcome(outcome);
    Ok(tape)
}

/// A call that changes a sector: the first one of the cartridge, but `Spoil` the first of its second segment.
#[derive(Clone, Copy)]
enum Call {
    Write,
    Format,
    Wear,
    Spoil,
}

/// What is found in the sector after a call, whatever it answers.
fn found_after(tape: &mut MemTape, call: Call) -> Found
    requires { tape_means.size tape.old ≡ Some 3 }
{
    match call {
        Call::Write => {
            let _ = write_sector(tape, 0, 0, &[9; 1024]);
            found(tape, 0, 0)
        }
        Call::Format => {
            let _ = tape.format_segment(0);
            found(tape, 0, 0)
        }
        Call::Wear => {
            let _ = tape.wear(0, 0);
            found(tape, 0, 0)
        }
        Call::Spoil => {
            let _ = tape.spoil(1, 0);
            found(tape, 1, 0)
        }
    }
}

/// What a failing call leaves of its sector.
fn left_by(alloc: Global, call: Call, outcome: Outcome) -> Result<Found, Fail> {
    let mut tape = about_to_fail(alloc, outcome)?;
    Ok(found_after(&mut tape, call))
}

#[test]
fn a_failing_write_or_format_leaves_its_outcome(rt: HostRuntime) -> Result<(), Fail> {
    let left = [
        left_by(rt.alloc(), Call::Write, Outcome::Old)?,
        left_by(rt.alloc(), Call::Format, Outcome::Old)?,
        left_by(rt.alloc(), Call::Write, Outcome::Lost)?,
        left_by(rt.alloc(), Call::Format, Outcome::Lost)?,
        left_by(rt.alloc(), Call::Write, Outcome::New)?,
        left_by(rt.alloc(), Call::Format, Outcome::New)?,
    ];
    assert_eq!(rt; left, [good(7), good(7), LOST, LOST, good(9), good(0)]);
    Ok(())
}

#[test]
fn a_failing_wear_or_spoil_is_done_or_not(rt: HostRuntime) -> Result<(), Fail> {
    let left = [
        left_by(rt.alloc(), Call::Wear, Outcome::Lost)?,
        left_by(rt.alloc(), Call::Spoil, Outcome::Lost)?,
        left_by(rt.alloc(), Call::Wear, Outcome::New)?,
        left_by(rt.alloc(), Call::Spoil, Outcome::New)?,
    ];
    assert_eq!(rt; left, [good(7), BLANK, LOST, LOST]);
    Ok(())
}

/// What is known of the cartridge after a renewal that fails.
fn left_by_renewal(alloc: Global, outcome: Outcome) -> Result<Info, Fail> {
    let mut tape = about_to_fail(alloc, outcome)?;
    let _ = tape.renew(3);
    Ok(tape.info())
}

/// What is known of a new cartridge after both marks, which are to fail.
fn mark(tape: &mut MemTape, outcome: Outcome) -> Result<Option<TapeInfo>, TapeFailed> {
    tape.renew(3)?;
    tape.set_outcome(outcome);
    let _ = tape.set_referenced();
    let _ = tape.set_protected(true);
    tape.info()
}

fn left_by_marks(alloc: Global, outcome: Outcome) -> Result<Info, Fail> {
    let mut tape = MemTape::recorded(alloc, 3, 3, [1, 2].to_vec(alloc)?)?;
    Ok(mark(&mut tape, outcome))
}

#[test]
fn a_failing_renewal_or_mark_leaves_its_outcome(rt: HostRuntime) -> Result<(), Fail> {
    let left = [
        left_by_renewal(rt.alloc(), Outcome::Old)?,
        left_by_renewal(rt.alloc(), Outcome::Lost)?,
        left_by_renewal(rt.alloc(), Outcome::New)?,
        left_by_marks(rt.alloc(), Outcome::Lost)?,
        left_by_marks(rt.alloc(), Outcome::New)?,
    ];
    assert_eq!(rt;
        left,
        [
            marked(false),
            Ok(None),
            marked(false),
            marked(false),
            marked(true)
        ]
    );
    Ok(())
}

/// The answers to a format, a write of sevens and a read at the end of the longest cartridge, and the last byte read.
type Last = (
    Result<(), TapeFailed>,
    Result<SectorWrite, TapeFailed>,
    Result<SectorRead, TapeFailed>,
    u8,
);

fn last_of_longest(tape: &mut SureTape) -> Result<Last, TapeFailed> {
    tape.renew(246)?;
    let mut into = [1; 1024];
    Ok((
        tape.format_segment(6887),
        write_sector(tape, 6887, 31, &[7; 1024]),
        read_sector(tape, 6887, 31, &mut into),
        into[1023],
    ))
}

#[test]
fn a_sure_tape_holds_the_longest_cartridge(rt: HostRuntime) -> Result<(), Fail> {
    let mut tape = SureTape::new(rt.alloc())?;
    let good = (Ok(()), Ok(SectorWrite::Taken), Ok(SectorRead::Good), 7);
    assert_eq!(rt; last_of_longest(&mut tape), Ok(good));
    Ok(())
}
