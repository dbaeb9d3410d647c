//! The record of a disk in memory.

ghost use Rattle.std.specs.Prelude.{◌≡◌, false, Some, length, IfOk};
ghost use Rattle.qic_mem.specs.DiskLog.{new_log, is_full, logged, settled};
ghost use Rattle.qic_mem.specs.DiskEntry.{entry_size, event_of};

use crate::disk::entry::DiskEntry;
use qic_base::NoMemory;
use std::alloc::Global;
use std::marker::Model;

/// The calls that were recorded, with the bytes of the writes one after another, and the room that is left for more.
#[derive(Drop)]
pub(crate) struct DiskRecord {
    entries: Vec<DiskEntry>,
    bytes: Vec<u8>,
    calls_left: usize,
    bytes_left: usize,
    pending: bool,
}

impl Model for DiskRecord {
    ghost use Rattle.qic_mem.specs.DiskLog.{DiskLog};

    ghost Value = { DiskLog };

    ghost use Rattle.qic_mem.specs.DiskEntries.{log_of, IsWhole};

    ghost view = { log_of };

    ghost invariant = { IsWhole };
}

impl DiskRecord {
    ghost use Rattle.qic_mem.specs.DiskEntries.{IsHistory};

    /// No call so far, and room for so many of them and so many bytes in all, which it takes at once.
    pub(crate) fn new(alloc: Global, calls: u32, bytes: u64) -> Result<Self, NoMemory>
        ensures { IfOk result (λ log. log ≡ new_log calls bytes) }
    {
        let calls_left = calls as usize;
        let bytes_left = bytes as usize;
        Ok(DiskRecord {
            entries: Vec::with_capacity(alloc, 2 * calls_left)?,
            bytes: Vec::with_capacity(alloc, bytes_left)?,
            calls_left,
            bytes_left,
            pending: false,
        })
    }

    /// Whether it has no room for one more call with so many bytes.
    fn is_full(&self, count: usize) -> bool
        ensures { result ≡ is_full (Some self.now) count }
    {
        self.calls_left == 0 || self.bytes_left < count
    }

    /// Records a call with its bytes.
    fn add(&mut self, entry: DiskEntry, part: &[u8])
        requires room { is_full (Some self.old) (length part.now) ≡ false }
        requires size { entry_size entry ≡ length part.now }
        ensures { Some self.new ≡ logged (Some self.old) (event_of entry part.now) }
    {
        self.bytes.extend_from_slice(part).unwrap();
        self.entries.push(entry).unwrap();
        self.calls_left -= 1;
        self.bytes_left -= part.len();
        self.pending = entry.is_pending();
    }

    /// Records that a failure left nothing pending, where something was.
    fn settle(&mut self)
        ensures { Some self.new ≡ settled (Some self.old) }
    {
        if self.pending {
            self.entries.push(DiskEntry::Settled).unwrap();
            self.pending = false;
        }
    }

    /// The entries, and the bytes of the writes one after another.
    pub(crate) fn history(&self) -> (&[DiskEntry], &[u8])
        ensures { IsHistory (Some self.now) result.0.now result.1.now }
    {
        (&self.entries, &self.bytes)
    }
}

/// Whether there is a record with no room for one more call with so many bytes.
pub(crate) fn is_full(log: &Option<DiskRecord>, count: usize) -> bool
    ensures { result ≡ is_full log.now count }
{
    match log {
        None => false,
        Some(log) => log.is_full(count),
    }
}

/// Records a call with its bytes, where there is a record.
pub(crate) fn add_entry(log: &mut Option<DiskRecord>, entry: DiskEntry, part: &[u8])
    requires room { is_full log.old (length part.now) ≡ false }
    requires size { entry_size entry ≡ length part.now }
    ensures { log.new ≡ logged log.old (event_of entry part.now) }
{
    if let Some(log) = log {
        log.add(entry, part);
    }
}

/// Records that a failure left nothing pending, where there is a record and something was.
pub(crate) fn settle(log: &mut Option<DiskRecord>)
    ensures { log.new ≡ settled log.old }
{
    if let Some(log) = log {
        log.settle();
    }
}
