//! Commands that are carried out in working objects that their caller made.

ghost use Rattle.command_spec.specs.Machine.{HasValues};

use crate::runs::words_of;
use crate::scripts::runs::{PRINTED, SCRIPT};
use crate::streams::{NEVER, ROOM, sink, source};
use crate::units::{formatted, put_away, tape};
use bad_sector_map::BadMap;
use drive_states::Unit;
use qic_mem::{MemTape, Outcome};
use segment_io::Workspace;
use std::alloc::Global;
use std::process::Abort;
use tape_cmd::{Status, run_ready};
use tape_script::{Words, read_words};
use volume_table::Table;

/// The command of these words.
fn command(rt: &impl Abort, alloc: Global, text: &[&str]) -> Words
    ensures { HasValues result }
{
    read_words(&words_of(rt, alloc, text)).expect(rt, "a command")
}

/// Carries out the words over this input, in working objects of their own. Answers the status, and whether this was
/// printed and no more.
fn told_ready(
    rt: &impl Abort,
    alloc: Global,
    unit: &mut Unit<MemTape>,
    text: &[&str],
    input: &[u8],
    printed: &[u8],
) -> (Status, bool) {
    let command = command(rt, alloc, text);
    let work = Workspace::new(alloc).expect(rt, "memory");
    let map = BadMap::new(alloc).expect(rt, "memory");
    let table = Table::new(alloc).expect(rt, "memory");
    let mut source = source(rt, alloc, input, NEVER);
    let mut out = sink(rt, alloc, ROOM, NEVER);
    let status = run_ready(&command, work, map, table, unit, &mut source, &mut out);
    (status, out.bytes() == printed)
}

/// What `info` prints of the cartridge.
const INFO: &[u8] = b"label L
formatted 1970-01-01T00:00:00
segments 84
bad sectors 0
volumes 0
";

/// A new cartridge is formatted, and then looked at. Answers how each command ended.
fn made(rt: &impl Abort, alloc: Global) -> [(Status, bool); 4] {
    let mut unit = Unit::new(tape(rt, alloc, NEVER, Outcome::Old));
    let ends = [
        told_ready(rt, alloc, &mut unit, &["new", "3"], b"", b"blank 3\n"),
        told_ready(
            rt,
            alloc,
            &mut unit,
            &["format", "L"],
            b"",
            b"formatted 84 0\n",
        ),
        told_ready(rt, alloc, &mut unit, &["list"], b"", b"volumes 0\n"),
        told_ready(rt, alloc, &mut unit, &["info"], b"", INFO),
    ];
    put_away(unit);
    ends
}

#[test]
fn a_cartridge_made_formatted_and_listed(rt: HostRuntime) {
    assert_eq!(rt; made(&rt, rt.alloc()), [(Status::Done, true); 4]);
}

#[test]
fn a_script_with_an_append_a_list_and_a_restore(rt: HostRuntime) {
    let alloc = rt.alloc();
    let mut unit = formatted(&rt, alloc);
    let ended = told_ready(&rt, alloc, &mut unit, &["script"], SCRIPT, PRINTED);
    put_away(unit);
    assert_eq!(rt; ended, (Status::Done, true));
}
