//! The record of a tape in memory.

ghost use Rattle.std.specs.Prelude.{◌≡◌, None, Some, IfOk};
ghost use Rattle.qic_mem.specs.Call.{call_of};
ghost use Rattle.qic_mem.specs.TapeLog.{new_log, is_full, logged};

use crate::tape::change::TapeChange;
use crate::tape::outcome::End;
use qic_base::NoMemory;
use std::alloc::Global;
use std::marker::Model;

/// A call that was recorded: its change, and how it ended.
#[derive(Drop)]
pub(crate) struct Call {
    pub(crate) change: TapeChange,
    pub(crate) end: End,
}

/// The calls that were recorded, the first of them first, and the room that is left for more.
#[derive(Drop)]
pub(crate) struct TapeRecord {
    calls: Vec<Call>,
    calls_left: usize,
}

impl Model for TapeRecord {
    ghost use Rattle.qic_mem.specs.TapeLog.{TapeLog};

    ghost Value = { TapeLog };

    ghost use Rattle.qic_mem.specs.Calls.{log_of, IsRoomy};

    ghost view = { log_of };

    ghost invariant = { IsRoomy };
}

impl TapeRecord {
    /// No call so far, and room for so many of them, which it takes at once.
    pub(crate) fn new(alloc: Global, calls: u32) -> Result<Self, NoMemory>
        ensures { IfOk result (λ log. log ≡ new_log calls) }
    {
        let calls_left = calls as usize;
        Ok(TapeRecord {
            calls: Vec::with_capacity(alloc, calls_left)?,
            calls_left,
        })
    }

    /// Whether it has no room for one more call.
    fn is_full(&self) -> bool
        ensures { result ≡ is_full (Some self.now) }
    {
        self.calls_left == 0
    }

    /// Records a call, where there is room for it.
    fn add(&mut self, call: Call)
        ensures { Some self.new ≡ logged (Some self.old) (call_of call) }
    {
        if self.calls_left > 0 {
            self.calls.push(call).unwrap();
            self.calls_left -= 1;
        }
    }
}

/// Whether there is a record with no room for one more call.
pub(crate) fn is_full(log: &Option<TapeRecord>) -> bool
    ensures { result ≡ is_full log.now }
{
    match log {
        None => false,
        Some(log) => log.is_full(),
    }
}

/// Records a call, where there is a record with room for it.
pub(crate) fn add_call(log: &mut Option<TapeRecord>, call: Call)
    ensures { log.new ≡ logged log.old (call_of call) }
{
    if let Some(log) = log {
        log.add(call);
    }
}
