//! Words over a drive, and copies between two, and what they have to answer. These functions have no clause, so the
//! proof of a test knows nothing of a drive but that it is one.

use drive_states::Unit;
use qic_mem::{MemSink, MemSource, MemTape};
use std::alloc::Global;
use std::process::Abort;
use tape_cmd::{Status, run};
use volume_copy::{CopyStatus, run_copy};

/// The number of no call.
pub const NEVER: u64 = u64::MAX;

/// Room for more than is printed here.
const ROOM: usize = 4096;

/// A source of these bytes that never fails.
fn source(rt: &impl Abort, alloc: Global, bytes: &[u8]) -> MemSource {
    let bytes = bytes.to_vec(alloc).expect(rt, "memory");
    MemSource::new(bytes, Vec::new(alloc))
}

/// An empty sink that never fails.
fn sink(rt: &impl Abort, alloc: Global) -> MemSink {
    MemSink::new(alloc, ROOM, Vec::new(alloc)).expect(rt, "memory")
}

/// Runs the words over a unit, with this input. Answers the status, and whether this text was printed and no other.
pub fn told(
    rt: &impl Abort,
    alloc: Global,
    unit: &mut Unit<MemTape>,
    text: &[&str],
    input: &[u8],
    printed: &[u8],
) -> (Status, bool) {
    let mut words = Vec::new(alloc);
    for word in text {
        let word = String::from_str(alloc, word).expect(rt, "memory");
        words.push(word).expect(rt, "memory");
    }
    let mut source = source(rt, alloc, input);
    let mut out = sink(rt, alloc);
    let status = run(alloc, &words, unit, &mut source, &mut out);
    (status, out.bytes() == printed)
}

/// Runs the words with no input. They have to be carried out and to print this text.
pub fn prints(
    rt: &impl Abort,
    alloc: Global,
    unit: &mut Unit<MemTape>,
    text: &[&str],
    printed: &[u8],
) {
    takes(rt, alloc, unit, text, b"", printed);
}

/// The same with this input.
pub fn takes(
    rt: &impl Abort,
    alloc: Global,
    unit: &mut Unit<MemTape>,
    text: &[&str],
    input: &[u8],
    printed: &[u8],
) {
    assert_eq!(rt;
        told(rt, alloc, unit, text, input, printed),
        (Status::Done, true),
        "the words {text:?}"
    );
}

/// How a copy ended, and whether it printed the text that was asked for and no other.
pub type Ending = (CopyStatus, bool);

/// Copies the volumes of one cartridge to another, and gives the drive of the first one back.
pub fn copied(
    rt: &impl Abort,
    alloc: Global,
    from: Unit<MemTape>,
    to: &mut Unit<MemTape>,
    printed: &[u8],
) -> (Ending, Unit<MemTape>) {
    let mut out = sink(rt, alloc);
    let (status, from) = run_copy(alloc, &Vec::new(alloc), from, to, &mut out);
    ((status, out.bytes() == printed), from)
}
