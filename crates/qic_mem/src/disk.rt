//! A disk in memory.

ghost use Rattle.std.specs.Prelude.{◌≡◌, ◌↔◌, ◌+◌, ◌-◌, ◌≤◌, [], None, Some, length, take, drop, min, is_err, IsErr, IfOk, IfSome, OnOk, OnErr};
ghost use Rattle.qic_base.specs.Disk.{Stores, Look, WriteAt, SetLen, Sync};
ghost use Rattle.qic_mem.specs.DiskLog.{new_log};
ghost use Rattle.qic_mem.specs.Plan.{new_plan, IsChosen};
ghost use Rattle.qic_mem.specs.Recorded.{IsRecorded, IsRecorded-prop};

mod disk_bytes;
mod entry;
mod log;

use crate::plan::{CallPlan, count_failure};
use disk_bytes::DiskBytes;
pub use entry::{DiskChange, DiskEntry};
use log::{DiskRecord, add_entry, is_full, settle};
use qic_base::{Disk, DiskFailed, NoMemory};
use std::alloc::Global;

/// A disk in memory, whose chosen calls fail.
#[derive(Drop)]
pub struct MemDisk {
    bytes: DiskBytes,
    plan: CallPlan,
    /// How many of the faults were writes, new lengths and syncs.
    failed_changes: u64,
    log: Option<DiskRecord>,
    ghost recorded: { IsRecorded log bytes } by { IsRecorded-prop log bytes },
}

#[tactic(auto, unfolding(crate::specs::Disk::disk_state))]
impl MemDisk {
    ghost use Rattle.qic_mem.specs.Disk.{disk_state};
    ghost use Rattle.qic_mem.specs.DiskEntries.{IsHistory};

    /// An empty disk with room for `room` bytes, which it takes at once. `fails` has the numbers of the calls that are
    /// to fail, counted from 0 over all calls. A `set_len` past `room` fails too. It keeps no record, and does not tell
    /// what a crash leaves.
    pub fn new(alloc: Global, room: u64, fails: Vec<u64>) -> Result<Self, NoMemory>
        ensures { IfOk result (λ disk. disk_state disk ≡ record {
          bytes = [];
          seen = 0;
          room = room;
          plan = new_plan fails.items;
          failed_changes = 0;
          log = None;
        }) }
    {
        Ok(MemDisk {
            bytes: DiskBytes::new(alloc, room)?,
            plan: CallPlan::new(fails),
            failed_changes: 0,
            log: None,
        })
    }

    /// The same, with a record of its calls but `len` and `read_at`, by which it tells what a crash leaves. It takes
    /// the room for `calls` of them and for `bytes` written bytes at once; such a call fails too where it finds none.
    pub fn recorded(
        alloc: Global,
        room: u64,
        calls: u32,
        bytes: u64,
        fails: Vec<u64>,
    ) -> Result<Self, NoMemory>
        ensures { IfOk result (λ disk. disk_state disk ≡ record {
          bytes = [];
          seen = 0;
          room = room;
          plan = new_plan fails.items;
          failed_changes = 0;
          log = Some (new_log calls bytes);
        }) }
    {
        Ok(MemDisk {
            bytes: DiskBytes::new(alloc, room)?,
            plan: CallPlan::new(fails),
            failed_changes: 0,
            log: Some(DiskRecord::new(alloc, calls, bytes)?),
        })
    }

    /// How many of its calls failed, or the greatest u64 where there were more.
    pub fn faults(&self) -> u64
        ensures { result ≡ (disk_state self.now).plan.faults }
    {
        self.plan.faults()
    }

    /// The entries of its record, the first of them first, and the bytes of its writes, one after another. It has none
    /// where it keeps no record.
    pub fn history(&self) -> (&[DiskEntry], &[u8])
        ensures { IsHistory (disk_state self.now).log result.0.now result.1.now }
    {
        match &self.log {
            None => (&[], &[]),
            Some(log) => log.history(),
        }
    }
}

#[tactic(auto, unfolding(crate::specs::Disk::disk_state))]
impl Disk for MemDisk {
    ghost use Rattle.qic_mem.specs.Disk.{disk_state, disk_means, Fails, after_call, after_len, after_read, disk-told_right, disk-left_now};

    ghost means = { disk_means };

    ghost told_right = { disk-told_right };

    ghost left_now = { disk-left_now };

    fn len(&mut self) -> Result<u64, DiskFailed>
        ensures did { Stores disk_means self.old self.new Look result }
        ensures len { IfOk result (λ n. IfSome (disk_means.told self.old) (λ bytes. n ≡ length bytes)) }
        ensures seen { IfOk result (λ n. disk_means.seen_len self.new ≡ n) }
        ensures failed { OnErr result (disk_means.seen_len self.new ≡ disk_means.seen_len self.old) }

        // It fails exactly at its chosen numbers, and the whole state follows.
        ensures fails { IsErr result ↔ IsChosen (disk_state self.old).plan }
        ensures state { disk_state self.new ≡ after_len (disk_state self.old) (is_err result) }
    {
        if self.plan.begin() {
            settle(&mut self.log);
            return Err(DiskFailed);
        }
        Ok(self.bytes.len())
    }

    fn read_at(&mut self, place: u64, into: &mut [u8]) -> Result<usize, DiskFailed>
        ensures did { Stores disk_means self.old self.new Look result }
        ensures within { IfOk result (λ n. n ≤ length into.old) }
        ensures amount { IfOk result (λ n. IfSome (disk_means.told self.old) (λ bytes.
            n ≡ min (length into.old) (length bytes - place))) }
        ensures given { IfOk result (λ n. IfSome (disk_means.told self.old) (λ bytes.
            take n into.new ≡ take n (drop place bytes))) }
        ensures seen { disk_means.seen_len self.new ≡ disk_means.seen_len self.old }

        ensures fails { IsErr result ↔ IsChosen (disk_state self.old).plan }
        ensures state { disk_state self.new ≡ after_read (disk_state self.old) (is_err result) }
    {
        if self.plan.begin() {
            settle(&mut self.log);
            return Err(DiskFailed);
        }
        Ok(self.bytes.read_at(place, into))
    }

    fn write_at(&mut self, place: u64, from: &[u8]) -> Result<(), DiskFailed>
        requires { place + length from.now ≤ disk_means.seen_len self.old }
        ensures did { Stores disk_means self.old self.new (WriteAt place from.now) result }
        ensures seen { disk_means.seen_len self.new ≡ disk_means.seen_len self.old }

        // A call that changes the disk fails exactly at its chosen numbers and past the stated rooms, and the whole
        // state follows.
        ensures fails { IsErr result ↔ Fails (disk_state self.old) (WriteAt place from.now) }
        ensures state { disk_state self.new
            ≡ after_call (disk_state self.old) (WriteAt place from.now) (is_err result) }
    {
        let change = DiskChange::WriteAt(place, from.len());
        let full = is_full(&self.log, from.len());
        let failed = full || self.plan.is_next_chosen();
        self.plan.count(failed);
        count_failure(&mut self.failed_changes, failed);
        if full {
            settle(&mut self.log);
            return Err(DiskFailed);
        }
        if failed {
            self.bytes.write_half(place, from);
            add_entry(&mut self.log, DiskEntry::Broke(change), from);
            return Err(DiskFailed);
        }
        self.bytes.write_at(place, from);
        add_entry(&mut self.log, DiskEntry::Made(change), from);
        Ok(())
    }

    fn set_len(&mut self, length: u64) -> Result<(), DiskFailed>
        ensures did { Stores disk_means self.old self.new (SetLen length) result }
        ensures seen { OnOk result (disk_means.seen_len self.new ≡ length) }
        ensures failed { OnErr result (disk_means.seen_len self.new ≡ 0) }

        ensures fails { IsErr result ↔ Fails (disk_state self.old) (SetLen length) }
        ensures state { disk_state self.new
            ≡ after_call (disk_state self.old) (SetLen length) (is_err result) }
    {
        let change = DiskChange::SetLen(length);
        let full = is_full(&self.log, 0);
        let failed = full || self.bytes.room() < length || self.plan.is_next_chosen();
        self.plan.count(failed);
        count_failure(&mut self.failed_changes, failed);
        if full {
            self.bytes.forget();
            settle(&mut self.log);
            return Err(DiskFailed);
        }
        if failed {
            self.bytes.forget();
            add_entry(&mut self.log, DiskEntry::Broke(change), &[]);
            return Err(DiskFailed);
        }
        self.bytes.set_len(length);
        add_entry(&mut self.log, DiskEntry::Made(change), &[]);
        Ok(())
    }

    fn sync(&mut self) -> Result<(), DiskFailed>
        ensures did { Stores disk_means self.old self.new Sync result }
        ensures seen { disk_means.seen_len self.new ≡ disk_means.seen_len self.old }

        ensures fails { IsErr result ↔ Fails (disk_state self.old) Sync }
        ensures state { disk_state self.new
            ≡ after_call (disk_state self.old) Sync (is_err result) }
    {
        let full = is_full(&self.log, 0);
        let failed = full || self.plan.is_next_chosen();
        self.plan.count(failed);
        count_failure(&mut self.failed_changes, failed);
        if full {
            settle(&mut self.log);
            return Err(DiskFailed);
        }
        if failed {
            add_entry(&mut self.log, DiskEntry::Broke(DiskChange::Sync), &[]);
            return Err(DiskFailed);
        }
        add_entry(&mut self.log, DiskEntry::Made(DiskChange::Sync), &[]);
        Ok(())
    }
}
