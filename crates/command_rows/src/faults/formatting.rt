//! Formattings in which a call of the tape fails, as a stop would cut them short, or a write of the sink.

use crate::faults::mounting::{LIST, one_volume};
use crate::faults::sectors::{is_lost_alone, write_first};
use crate::runs::{breaks_off, prints, told, told_into};
use crate::streams::{NEVER, ROOM};
use crate::units::{FORMATTING, OUTCOMES, blank_before, formatted_before, put_away};
use drive_states::Unit;
use qic_mem::{MemTape, Outcome};
use std::alloc::Global;
use std::process::Abort;
use tape_cmd::Status;

// The calls of the tape in a formatting at three segments per track, counted from 0: the insertion; the reference bursts;
// each of the 84 segments formatted; each of them read; each sector of copy 0 written, 1 to 31 and then 0; and copy 1 in
// the same way.

/// Puts the cartridge in.
const INSERTION: u64 = 0;
/// Sets the reference bursts.
const REFERENCE: u64 = 1;
/// Formats segment 0.
const FORMAT: u64 = 2;
/// Reads segment 0.
const READ: u64 = FORMAT + 84;
/// Writes sector 1 of copy 0.
const WRITE: u64 = READ + 84;
/// Writes sector 0 of copy 0.
const FIRST_COPY: u64 = WRITE + 31;
/// Writes sector 0 of copy 1.
const SECOND_COPY: u64 = FIRST_COPY + 32;

/// What a command answers and prints of a cartridge over which a formatting was cut short.
type Told = (Status, &'static [u8]);

/// What `info` tells of an unformatted one, and `list` too.
const NONE: Told = (Status::NotFormatted, b"");

/// What `info` tells of one without a defect or a volume, with the label `L` and no date given.
const OF_L: Told = (
    Status::Done,
    b"label L\nformatted 1970-01-01T00:00:00\nsegments 84\nbad sectors 0\nvolumes 0\n",
);

/// The same, with the label `M`.
const OF_M: Told = (
    Status::Done,
    b"label M\nformatted 1970-01-01T00:00:00\nsegments 84\nbad sectors 0\nvolumes 0\n",
);

/// What `list` tells of one without a volume.
const EMPTY: Told = (Status::Done, b"volumes 0\n");

/// What `list` tells of one with the volume of `one_volume`.
const LISTED: Told = (Status::Done, LIST);

/// Whether the command tells this.
fn tells(
    rt: &impl Abort,
    alloc: Global,
    unit: &mut Unit<MemTape>,
    command: &str,
    want: Told,
) -> bool {
    told(rt, alloc, &[command], unit, want.1) == (want.0, true)
}

/// Whether `info` and then `list` tell this of a new cartridge over which `format L` was cut short: this call of it
/// failed. Then a whole formatting has to be carried out.
fn first_leaves(
    rt: &impl Abort,
    alloc: Global,
    call: u64,
    outcome: Outcome,
    info: Told,
    list: Told,
) -> bool {
    let mut unit = blank_before(rt, alloc, call, outcome);
    breaks_off(rt, alloc, &mut unit, &["format", "L"]);
    let info_tells = tells(rt, alloc, &mut unit, "info", info);
    let list_tells = tells(rt, alloc, &mut unit, "list", list);
    prints(rt, alloc, &mut unit, &["format", "M"], b"formatted 84 0\n");
    put_away(unit);
    info_tells && list_tells
}

/// What they have to tell. Sector 0 of copy 0 is the first that a mounting finds; lost, it is found again from the
/// others.
fn kept(call: u64, outcome: Outcome) -> (Told, Told) {
    if call < FIRST_COPY || (call == FIRST_COPY && outcome == Outcome::Old) {
        (NONE, NONE)
    } else {
        (OF_L, EMPTY)
    }
}

/// Lets this call fail with each outcome.
fn fails_at(rt: &impl Abort, alloc: Global, call: u64) {
    for outcome in OUTCOMES {
        let (info, list) = kept(call, outcome);
        let left = first_leaves(rt, alloc, call, outcome, info, list);
        assert!(rt; left, "call {call}, {outcome:?}");
    }
}

#[test]
fn a_first_format_leaves_no_header_or_its_own(rt: HostRuntime) {
    for call in INSERTION..READ + 1 {
        fails_at(&rt, rt.alloc(), call);
    }
    // Of the reads, the first and the last.
    for call in WRITE - 1..FORMATTING {
        fails_at(&rt, rt.alloc(), call);
    }
}

/// What `format L` prints.
const LINE: &[u8] = b"formatted 84 0\n";

/// `format L` over a new cartridge has to answer this status, where the sink with this room takes so many bytes of its
/// line, since its write with this number fails. The cartridge is formatted in any case.
fn ends_into(
    rt: &impl Abort,
    alloc: Global,
    room: usize,
    write: u64,
    status: Status,
    taken: &[u8],
) {
    let mut unit = blank_before(rt, alloc, NEVER, Outcome::Old);
    assert_eq!(rt;
        told_into(rt, alloc, &["format", "L"], &mut unit, room, write, taken),
        (status, true),
        "room {room}, write {write}"
    );
    prints(rt, alloc, &mut unit, &["list"], b"volumes 0\n");
    put_away(unit);
}

#[test]
fn a_format_stands_where_its_line_is_cut_short(rt: HostRuntime) {
    let alloc = rt.alloc();
    for room in 0..LINE.len() {
        ends_into(&rt, alloc, room, NEVER, Status::SinkFault, &LINE[..room]);
    }
    ends_into(&rt, alloc, LINE.len(), NEVER, Status::Done, LINE);
    // The line is one write.
    ends_into(&rt, alloc, ROOM, 0, Status::SinkFault, b"");
    ends_into(&rt, alloc, ROOM, 1, Status::Done, LINE);
}

/// A cartridge with the label `L` over which `format M` was cut short: this call of it failed.
fn cut_second(rt: &impl Abort, alloc: Global, call: u64, outcome: Outcome) -> Unit<MemTape> {
    let mut unit = formatted_before(rt, alloc, call, outcome);
    breaks_off(rt, alloc, &mut unit, &["format", "M"]);
    unit
}

/// Whether `info` tells this of it.
fn second_leaves(rt: &impl Abort, alloc: Global, call: u64, outcome: Outcome, info: Told) -> bool {
    let mut unit = cut_second(rt, alloc, call, outcome);
    let left = tells(rt, alloc, &mut unit, "info", info);
    put_away(unit);
    left
}

#[test]
fn a_second_format_leaves_the_old_header_none_or_its_own(rt: HostRuntime) {
    let rows = [
        (INSERTION, [OF_L; 3]),
        (REFERENCE, [OF_L; 3]),
        // Segment 0: copy 1 still stands.
        (FORMAT, [OF_L; 3]),
        (FORMAT + 1, [OF_L, NONE, NONE]),
        (FORMAT + 2, [NONE; 3]),
        (READ - 1, [NONE; 3]),
        (READ, [NONE; 3]),
        (WRITE - 1, [NONE; 3]),
        (WRITE, [NONE; 3]),
        (FIRST_COPY - 1, [NONE; 3]),
        (FIRST_COPY, [NONE, OF_M, OF_M]),
        (FIRST_COPY + 1, [OF_M; 3]),
        (SECOND_COPY, [OF_M; 3]),
    ];
    for (call, wanted) in rows {
        for (outcome, want) in OUTCOMES.into_iter().zip(wanted) {
            let left = second_leaves(&rt, rt.alloc(), call, outcome, want);
            assert!(rt; left, "call {call}, {outcome:?}");
        }
    }
}

#[test]
fn each_step_has_its_call(rt: HostRuntime) {
    // A segment, and the mask of its sectors that are lost where the call leaves what it was about lost.
    let rows = [
        (FORMAT, 0, u32::MAX),
        (FORMAT + 1, 1, u32::MAX),
        (FORMAT + 3, 3, u32::MAX),
        (FORMAT + 83, 83, u32::MAX),
        (WRITE, 0, 0x0000_0002),
        (WRITE + 1, 0, 0x0000_0004),
        (FIRST_COPY - 1, 0, 0x8000_0000),
        (FIRST_COPY, 0, 0x0000_0001),
        (FIRST_COPY + 1, 1, 0x0000_0002),
        (SECOND_COPY - 1, 1, 0x8000_0000),
        (SECOND_COPY, 1, 0x0000_0001),
    ];
    for (call, segment, lost) in rows {
        let mut tape = cut_second(&rt, rt.alloc(), call, Outcome::Lost).into_tape();
        assert_eq!(rt;
            is_lost_alone(&mut tape, segment, lost),
            Ok(true),
            "call {call}"
        );
    }
}

#[test]
fn a_formatting_has_so_many_calls(rt: HostRuntime) {
    let alloc = rt.alloc();
    // The first call behind it is the insertion of the next command.
    let mut unit = formatted_before(&rt, alloc, 0, Outcome::Old);
    breaks_off(&rt, alloc, &mut unit, &["list"]);
    prints(&rt, alloc, &mut unit, &["list"], b"volumes 0\n");
    put_away(unit);
}

/// The calls of the tape that write a volume table.
const TABLE: u64 = 8;

/// A cartridge with the label `L` and one volume, on a tape of which this call of the next command fails.
fn with_volume(rt: &impl Abort, alloc: Global, call: u64, outcome: Outcome) -> Unit<MemTape> {
    let unit = formatted_before(rt, alloc, TABLE.saturating_add(call), outcome);
    let mut tape = unit.into_tape();
    write_first(&mut tape, 2, &one_volume()).expect(rt, "a volume table");
    Unit::new(tape)
}

/// Whether `list` tells this after a `format M` whose call with this number fails.
fn volumes_left(rt: &impl Abort, alloc: Global, call: u64, outcome: Outcome, list: Told) -> bool {
    let mut unit = with_volume(rt, alloc, call, outcome);
    breaks_off(rt, alloc, &mut unit, &["format", "M"]);
    let left = tells(rt, alloc, &mut unit, "list", list);
    put_away(unit);
    left
}

#[test]
fn volumes_stand_until_segment_1_is_formatted(rt: HostRuntime) {
    let rows = [
        // While segment 0 is formatted and after that, by the second copy.
        (FORMAT, Outcome::Lost, LISTED),
        (FORMAT + 1, Outcome::Old, LISTED),
        // After segment 1 was formatted.
        (FORMAT + 1, Outcome::New, NONE),
        (FORMAT + 2, Outcome::Old, NONE),
        (WRITE, Outcome::Old, NONE),
        // While sector 0 of copy 0 is written.
        (FIRST_COPY, Outcome::Old, NONE),
        (FIRST_COPY, Outcome::Lost, EMPTY),
    ];
    for (call, outcome, want) in rows {
        let left = volumes_left(&rt, rt.alloc(), call, outcome, want);
        assert!(rt; left, "call {call}, {outcome:?}");
    }
}
