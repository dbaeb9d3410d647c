//! `info` and `list` over a tape or a sink that fails, and the settling of a volume table that breaks off.

use crate::faults::sectors::{faults, wear, write, write_first};
use crate::runs::{run_words, told_into};
use crate::streams::{NEVER, ROOM, sink};
use crate::units::{OUTCOMES, put_away, tape};
use drive_states::Unit;
use qic_base::{Sector, Tape, TapeFailed};
use qic_mem::{MemTape, Outcome};
use std::alloc::Global;
use std::process::Abort;
use tape_cmd::Status;

/// The calls of the tape that make a cartridge: a new one, its mark, three segments formatted, and eight for each of
/// the header and the volume table.
const MADE: u64 = 21;

/// The calls of a mounting that reads copy 0 of the header and writes nothing: one that looks, and one that reads each
/// of the segments 0 and 2.
const READS: u64 = 3;

/// The first 30 bytes of a header of three segments per track, of 1994-03-01T12:00:00.
const HEAD: [u8; 30] = [
    0x55, 0xAA, 0x55, 0xAA, 2, 0, 0, 0, 1, 0, 2, 0, 0x53, 0, 0xC0, 0x65, 0x52, 0x30, 0xC0, 0x65,
    0x52, 0x30, 0, 0, 3, 0, 0x1C, 0, 0x95, 0x80,
];

/// The first sector of that header, with the label `A`.
fn header() -> Sector {
    let mut sector = [0; 1024];
    sector[..30].copy_from_slice(&HEAD);
    sector[30..74].copy_from_slice(b"A                                           ");
    sector[74..78].copy_from_slice(&[0xC0, 0x65, 0x52, 0x30]);
    sector
}

/// What `info` prints of a cartridge with that header and one volume.
const INFO: &[u8] =
    b"label A\nformatted 1994-03-01T12:00:00\nsegments 84\nbad sectors 0\nvolumes 1\n";

/// The first sector of a volume table with one volume: ten bytes in segment 3, called `a`, of the same time.
pub fn one_volume() -> Sector {
    let mut sector = [0; 1024];
    sector[..8].copy_from_slice(b"VTBL\x03\0\x03\0");
    sector[8..52].copy_from_slice(b"a                                           ");
    sector[52..58].copy_from_slice(&[0xC0, 0x65, 0x52, 0x30, 1, 1]);
    sector[96] = 10;
    sector
}

/// What `list` prints of it.
pub const LIST: &[u8] = b"1 3 3 10 1994-03-01T12:00:00 a\nvolumes 1\n";

/// A new cartridge, referenced, of which the first three segments are formatted: 5 calls.
fn put_in(tape: &mut MemTape) -> Result<(), TapeFailed> {
    tape.renew(3)?;
    tape.set_referenced()?;
    tape.format_segment(0)?;
    tape.format_segment(1)?;
    tape.format_segment(2)
}

/// A cartridge with that header and this first sector of a volume table, by `MADE` calls.
fn make(tape: &mut MemTape, table: &Sector) -> Result<(), TapeFailed> {
    put_in(tape)?;
    write_first(tape, 0, &header())?;
    write_first(tape, 2, table)
}

/// The same where the tape's call fails that comes so many calls later, and then leaves this.
fn made_before(
    rt: &impl Abort,
    alloc: Global,
    table: &Sector,
    call: u64,
    outcome: Outcome,
) -> MemTape {
    let mut tape = tape(rt, alloc, MADE.saturating_add(call), outcome);
    make(&mut tape, table).expect(rt, "a cartridge");
    tape
}

/// Runs `list`. Answers its status, and whether the volume was printed at `Done`, and else nothing.
fn lists(rt: &impl Abort, alloc: Global, unit: &mut Unit<MemTape>) -> (Status, bool) {
    let mut out = sink(rt, alloc, ROOM, NEVER);
    let status = run_words(rt, alloc, &["list"], unit, &mut out);
    let printed = out.bytes() == if status == Status::Done { LIST } else { b"" };
    (status, printed)
}

/// What three runs of `list` answer, one after the other, and the faults that the table then has.
type Thrice = ([(Status, bool); 3], Result<u32, TapeFailed>);

/// Runs `list` three times over a tape.
fn lists_thrice(rt: &impl Abort, alloc: Global, tape: MemTape) -> Thrice {
    let mut unit = Unit::new(tape);
    let first = lists(rt, alloc, &mut unit);
    let second = lists(rt, alloc, &mut unit);
    let third = lists(rt, alloc, &mut unit);
    let faults = faults(&mut unit.into_tape(), &one_volume());
    ([first, second, third], faults)
}

/// Wears two data sectors and one of parity of the volume table, by 6 calls.
fn wear_table(tape: &mut MemTape) -> Result<(), TapeFailed> {
    wear(tape, 2, 0)?;
    wear(tape, 2, 17)?;
    wear(tape, 2, 30)
}

/// What `list` answers where the table has the one volume, and is worn so. The call with this number fails, counted
/// from the first one behind these, and leaves this.
fn lists_worn(rt: &impl Abort, alloc: Global, call: u64, outcome: Outcome) -> Thrice {
    let mut tape = made_before(rt, alloc, &one_volume(), 6u64.saturating_add(call), outcome);
    wear_table(&mut tape).expect(rt, "a worn table");
    lists_thrice(rt, alloc, tape)
}

/// The same where the table has the data of one volume, and the parity of none, by 2 calls.
fn lists_torn(rt: &impl Abort, alloc: Global, call: u64, outcome: Outcome) -> Thrice {
    let mut tape = made_before(rt, alloc, &[0; 1024], 2u64.saturating_add(call), outcome);
    write(&mut tape, 2, 0, &one_volume()).expect(rt, "a torn table");
    lists_thrice(rt, alloc, tape)
}

#[test]
fn a_call_that_fails_is_told(rt: HostRuntime) {
    let done = (Status::Done, true);
    let first = [(Status::TapeFault, true), done, done];
    let second = [done, (Status::TapeFault, true), done];
    let third = [done, done, (Status::TapeFault, true)];
    let rows = [
        (0, first),
        // The read of the header, and of the table.
        (1, first),
        (2, first),
        // The three writes.
        (READS, first),
        (READS + 1, first),
        (READS + 2, first),
        // The second run looks and reads, and writes nothing: the next call is the first one of the third run.
        (READS + 3, second),
        (READS + 4, second),
        (2 * READS + 2, second),
        (2 * READS + 3, third),
    ];
    for (call, answers) in rows {
        let lists = lists_worn(&rt, rt.alloc(), call, Outcome::Old);
        assert_eq!(rt; lists, (answers, Ok(0)), "call {call}");
    }
}

#[test]
fn a_stop_in_settling_leaves_the_list(rt: HostRuntime) {
    let alloc = rt.alloc();
    let done = (Status::Done, true);
    let want = ([(Status::TapeFault, true), done, done], Ok(0));
    for outcome in OUTCOMES {
        for write in 0..3 {
            let left = [
                lists_worn(&rt, alloc, READS + write, outcome),
                lists_torn(&rt, alloc, READS + write, outcome),
            ];
            assert_eq!(rt; left, [want; 2], "write {write} leaves {outcome:?}");
        }
    }
}

/// What these words answer over a sink with this room, whose write with this number fails, and whether the sink took
/// this text and no other.
fn prints_into(
    rt: &impl Abort,
    alloc: Global,
    words: &[&str],
    room: usize,
    write: u64,
    taken: &[u8],
) -> (Status, bool) {
    let mut unit = Unit::new(made_before(rt, alloc, &one_volume(), NEVER, Outcome::Old));
    let told = told_into(rt, alloc, words, &mut unit, room, write, taken);
    put_away(unit);
    told
}

#[test]
fn a_sink_that_fails_took_the_front(rt: HostRuntime) {
    let alloc = rt.alloc();
    let fault = (Status::SinkFault, true);
    let done = (Status::Done, true);
    for room in 0..INFO.len() {
        let told = prints_into(&rt, alloc, &["info"], room, NEVER, &INFO[..room]);
        assert_eq!(rt; told, fault, "room {room}");
    }
    let rows = [
        ("info", INFO.len(), NEVER, done, INFO),
        // The label's and the date's line, 38 bytes, are written at once, and then the other three.
        ("info", ROOM, 0, fault, b"".as_slice()),
        ("info", ROOM, 1, fault, &INFO[..38]),
        // The volume's line, 31 bytes, and then the count.
        ("list", ROOM, 0, fault, b"".as_slice()),
        ("list", ROOM, 1, fault, &LIST[..31]),
    ];
    for (word, room, write, want, taken) in rows {
        let told = prints_into(&rt, alloc, &[word], room, write, taken);
        assert_eq!(rt; told, want, "{word}, room {room}, write {write}");
    }
}
