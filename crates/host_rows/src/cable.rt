//! Cartridges in a drive, hosts that know them, and what the drive shows past its host.

ghost use Rattle.std.specs.Prelude.{◌≡◌, ◌≤◌, true, false, IfSome, OnSome};
ghost use Rattle.drive_spec.specs.Deck.{segments_per_track, is_stopped};
ghost use Rattle.drive_spec.specs.Terms.{is_protected, is_referenced};
ghost use Rattle.host_driver.specs.Fits.{Fits, IsAtRest};
ghost use Rattle.qic_mem.specs.Tape.{tape_means};

use crate::trains::{WRITTEN, report, train, write_one};
use drive_states::{FdcFault, FloppyAddr, HandFault, Unit};
use host_driver::Host;
use qic_base::{Sector, Tape, TapeFailed};
use qic_mem::MemTape;
use qic117_commands::Mode;
use std::alloc::Global;
use std::process::Abort;

/// A tape with room for a cartridge of three segments per track. `fails` has the numbers of its calls that fail.
pub fn tape(rt: &impl Abort, alloc: Global, fails: &[u64]) -> MemTape {
    let fails = fails.to_vec(alloc).expect(rt, "memory");
    MemTape::new(alloc, 3, fails).expect(rt, "memory")
}

/// A drive with a new cartridge of three segments per track, put there by call 0 of the tape.
pub fn blank(rt: &impl Abort, alloc: Global, fails: &[u64]) -> Unit<MemTape> {
    let mut tape = tape(rt, alloc, fails);
    tape.renew(3).expect(rt, "a cartridge");
    Unit::new(tape)
}

/// A drive with a cartridge of three segments per track. It is referenced, segments 0 and 4 are formatted, and the
/// first sector of segment 4 was written: calls 0 to 4 made all this.
pub fn written(rt: &impl Abort, alloc: Global, fails: &[u64]) -> Unit<MemTape> {
    let mut tape = tape(rt, alloc, fails);
    write_one(&mut tape).expect(rt, "a cartridge");
    Unit::new(tape)
}

/// Takes a drive away, with its tape. The functions that hand their drive over here have none to drop, which keeps
/// their proofs short.
pub fn put_away(_unit: Unit<MemTape>) {}

/// A host that knows a referenced cartridge of three segments per track, which may be written; None where there is
/// another or none, or the tape fails. It puts the cartridge in by one call of the tape.
pub fn begun(unit: &mut Unit<MemTape>) -> Option<Host>
    ensures fits { IfSome result (λ host. Fits tape_means host unit.new) }
    ensures rest { OnSome result (IsAtRest unit.new.drive) }
    ensures stopped { OnSome result (is_stopped unit.new.drive.deck.motion ≡ true) }
    ensures mode { OnSome result (unit.new.drive.deck.mode ≡ Mode.Primary) }
    ensures writable { OnSome result (is_protected unit.new.drive.deck ≡ false) }
    ensures referenced { OnSome result (is_referenced unit.new.drive.deck ≡ true) }
    ensures length { OnSome result (segments_per_track unit.new.drive.deck ≡ 3) }
{
    let Ok(Some(host)) = Host::start(unit) else {
        return None;
    };
    if host.protected() || !host.referenced() || host.geometry().segments_per_track() != 3 {
        return None;
    }
    Some(host)
}

/// Something done to a drive past any host, with what has to come of it.
#[derive(Clone, Copy)]
pub enum Row {
    /// A person takes the cartridge out and puts it in again.
    Insert,
    /// A person puts in a new cartridge of so many segments per track.
    Load(u16, Result<(), TapeFailed>),
    /// A person sets or clears the protect mark.
    Protect(bool, Result<Result<(), HandFault>, TapeFailed>),
    /// A person wears a sector.
    Wear(u32, u32, Result<Result<(), HandFault>, TapeFailed>),
    /// A person spoils a sector.
    Spoil(u32, u32, Result<Result<(), HandFault>, TapeFailed>),
    /// A person brings the cartridge to the newest layout.
    Upgrade(Result<Result<u8, HandFault>, TapeFailed>),
    /// A train of so many pulses, which leaves the level 0 on the line.
    Train(u16),
    /// A report of the status, a word of 8 bits.
    Status(u16),
    /// A report of the error word, 16 bits.
    Error(u16),
    /// Reports of the status until one shows that the tape stands: the last train began a seek of the load point. It
    /// takes 160 gaps, and a report ten, of which the first loads the word, so it is the 17th.
    AtLoadPoint,
    /// A read of a sector each of whose bytes is this one.
    Shows(FloppyAddr, u8),
    /// A read that is refused, and leaves the bytes as they were.
    Refuses(FloppyAddr, FdcFault),
    /// A read in which the tape fails, and which leaves the bytes as they were.
    Fails(FloppyAddr),
    /// A write of bytes `WRITTEN`.
    Write(FloppyAddr, Result<Result<(), FdcFault>, TapeFailed>),
    /// The segment under the head is formatted.
    Format,
}

/// How many reports of the status come until one shows that the tape stands; 0 where none of 20 does.
fn reports_of_the_status(unit: &mut Unit<MemTape>) -> u8 {
    for before in 0..20 {
        if report(unit, 6, 8).is_some_and(|status| status & 1 == 1) {
            return before + 1;
        }
    }
    0
}

/// The answer to a read, and what the bytes 1 became.
fn read(
    unit: &mut Unit<MemTape>,
    addr: FloppyAddr,
) -> (Result<Result<(), FdcFault>, TapeFailed>, Sector) {
    let mut into = [1; 1024];
    (unit.read_sector(addr, &mut into), into)
}

fn holds(unit: &mut Unit<MemTape>, row: Row) -> bool {
    match row {
        Row::Insert => unit.insert() == Ok(()),
        Row::Load(length, answer) => {
            3 <= length && length <= 246 && unit.load_blank(length) == answer
        }
        Row::Protect(on, answer) => unit.protect(on) == answer,
        Row::Wear(segment, sector, answer) => unit.wear(segment, sector) == answer,
        Row::Spoil(segment, sector, answer) => unit.spoil(segment, sector) == answer,
        Row::Upgrade(answer) => unit.upgrade() == answer,
        Row::Train(pulses) => train(unit, pulses) == Ok(false),
        Row::Status(word) => report(unit, 6, 8) == Some(word),
        Row::Error(word) => report(unit, 7, 16) == Some(word),
        Row::AtLoadPoint => reports_of_the_status(unit) == 17,
        Row::Shows(addr, byte) => read(unit, addr) == (Ok(Ok(())), [byte; 1024]),
        Row::Refuses(addr, fault) => read(unit, addr) == (Ok(Err(fault)), [1; 1024]),
        Row::Fails(addr) => read(unit, addr) == (Err(TapeFailed), [1; 1024]),
        Row::Write(addr, answer) => unit.write_sector(addr, &[WRITTEN; 1024]) == answer,
        Row::Format => unit.format_segment() == Ok(Ok(())),
    }
}

/// Goes through rows. Answers the number of the first from which something else comes, counted from 0.
pub fn first_wrong(unit: &mut Unit<MemTape>, rows: &[Row]) -> Option<usize> {
    for at in 0..rows.len() {
        if !holds(unit, rows[at]) {
            return Some(at);
        }
    }
    None
}
