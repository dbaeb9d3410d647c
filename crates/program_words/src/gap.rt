//! The gap that the words of a command line give.

ghost use Rattle.std.specs.Prelude.{◌≡◌, ◌↔◌, IsTrue, map, string_bytes, MatchResult};
ghost use Rattle.program_words.specs.TraceWords.{HasGap, IsRefusedBy};

use crate::option::trace_command;
use clap::error::ErrorKind;
use std::alloc::Global;

/// Why words gave no gap.
#[derive(Clone, Copy, PartialEq, Eq)]
pub enum BadGap {
    /// They are not among those that the command takes.
    Refused,
    /// There was no memory to read them.
    NoMemory,
}

/// Whether words were not read for want of memory.
pub(crate) fn is_memory(kind: ErrorKind) -> bool
    ensures { IsTrue result ↔ (kind ≡ ErrorKind.OutOfMemory) }
{
    matches!(kind, ErrorKind::OutOfMemory)
}

/// The gap that the words of the command line give, the program's name the first of them. Memory is taken for the
/// reading alone.
pub fn read_gap(alloc: Global, words: &Vec<String>) -> Result<u32, BadGap>
    ensures { MatchResult result
        (HasGap (map string_bytes words.now.items))
        (IsRefusedBy (map string_bytes words.now.items)) }
{
    let Ok(command) = trace_command(alloc) else {
        return Err(BadGap::NoMemory);
    };
    match command.try_get_matches_from(words.as_slice()) {
        Ok(matches) => match matches.get_one::<u32>("gap") {
            Some(gap) => Ok(gap),
            None => unreachable!("the gap has a default"),
        },
        Err(error) => {
            if is_memory(error.kind()) {
                Err(BadGap::NoMemory)
            } else {
                Err(BadGap::Refused)
            }
        }
    }
}
