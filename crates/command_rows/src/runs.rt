//! Words over a drive, and what they have to answer. These functions have no clause, so the proof of a test knows nothing
//! of a drive but that it is one.

use crate::streams::{NEVER, ROOM, sink, source};
use drive_states::Unit;
use qic_base::Source;
use qic_mem::{MemSink, MemTape};
use std::alloc::Global;
use std::process::Abort;
use tape_cmd::{Status, run};

/// The words of these texts.
pub fn words_of(rt: &impl Abort, alloc: Global, text: &[&str]) -> Vec<String> {
    let mut words = Vec::new(alloc);
    for word in text {
        let word = String::from_str(alloc, word).expect(rt, "memory");
        words.push(word).expect(rt, "memory");
    }
    words
}

/// Runs the words over a unit, with this input.
pub fn run_over<S: Source>(
    rt: &impl Abort,
    alloc: Global,
    text: &[&str],
    unit: &mut Unit<MemTape>,
    source: &mut S,
    sink: &mut MemSink,
) -> Status {
    run(alloc, &words_of(rt, alloc, text), unit, source, sink)
}

/// Runs the words over a unit, with no input.
pub fn run_words(
    rt: &impl Abort,
    alloc: Global,
    text: &[&str],
    unit: &mut Unit<MemTape>,
    sink: &mut MemSink,
) -> Status {
    let mut source = source(rt, alloc, b"", NEVER);
    run_over(rt, alloc, text, unit, &mut source, sink)
}

/// Runs the words with no input over a sink with this room, whose write with this number fails. Answers the status, and
/// whether the sink took this text and no other.
pub fn told_into(
    rt: &impl Abort,
    alloc: Global,
    text: &[&str],
    unit: &mut Unit<MemTape>,
    room: usize,
    write: u64,
    printed: &[u8],
) -> (Status, bool) {
    let mut out = sink(rt, alloc, room, write);
    let status = run_words(rt, alloc, text, unit, &mut out);
    (status, out.bytes() == printed)
}

/// The same over a sink that has room for the text and does not fail.
pub fn told(
    rt: &impl Abort,
    alloc: Global,
    text: &[&str],
    unit: &mut Unit<MemTape>,
    printed: &[u8],
) -> (Status, bool) {
    told_into(rt, alloc, text, unit, ROOM, NEVER, printed)
}

/// Runs the words with no input. They have to answer this status and to print this text.
pub fn answers(
    rt: &impl Abort,
    alloc: Global,
    unit: &mut Unit<MemTape>,
    text: &[&str],
    status: Status,
    printed: &[u8],
) {
    assert_eq!(rt;
        told(rt, alloc, text, unit, printed),
        (status, true),
        "the words {text:?}"
    );
}

/// Runs the words, which have to be carried out and to print this text.
pub fn prints(
    rt: &impl Abort,
    alloc: Global,
    unit: &mut Unit<MemTape>,
    text: &[&str],
    printed: &[u8],
) {
    answers(rt, alloc, unit, text, Status::Done, printed);
}

/// Runs the words, whose work the tape's fault has to cut off before they print.
pub fn breaks_off(rt: &impl Abort, alloc: Global, unit: &mut Unit<MemTape>, text: &[&str]) {
    answers(rt, alloc, unit, text, Status::TapeFault, b"");
}
