//! A disk of which some bytes can't be read.

ghost use Rattle.std.specs.Prelude.{◌≡◌, ◌≤◌, false, None};
ghost use Rattle.qic_base.specs.Tape.{Rose};

use qic_base::{Disk, DiskFailed};
use qic_mem::MemDisk;
use std::marker::Model;

/// A disk in memory that can't be written any more. A read fails in which one of its bad bytes is.
#[derive(Drop)]
pub struct Scratched {
    disk: MemDisk,
    /// The first of them.
    bad: u64,
    count: u64,
    seen: u64,
    faults: u64,
    /// How many of the faults were writes and new lengths.
    failed_changes: u64,
}

impl Model for Scratched {
    ghost use Rattle.std.specs.Prelude.{ℕ, false, None};
    ghost use Rattle.tape_files.specs.Edge.{FileState};

    ghost Value = { FileState ℕ };

    ghost view = { λ d. record {
      file = d.bad;
      resized = false;
      changed = false;
      seen = d.seen;
      faults = d.faults;
      failed_changes = d.failed_changes;
      failure = None;
    } };
}

impl Scratched {
    /// The disk, of which `count` bytes from place `bad` on cannot be read.
    pub fn new(disk: MemDisk, bad: u64, count: u64) -> Scratched
        ensures { result ≡ record {
          file = bad;
          resized = false;
          changed = false;
          seen = 0;
          faults = 0;
          failed_changes = 0;
          failure = None;
        } }
    {
        Scratched {
            disk,
            bad,
            count,
            seen: 0,
            faults: 0,
            failed_changes: 0,
        }
    }

    /// Counts a failure.
    fn count_fault(&mut self)
        ensures failed { Rose self.old.faults self.new.faults }
        ensures later { self.old.faults ≤ self.new.faults }
        ensures changes { self.new.failed_changes ≡ self.old.failed_changes }
        ensures seen { self.new.seen ≡ self.old.seen }
    {
        self.faults = self.faults.saturating_add(1);
    }

    /// Counts a failure of a write or of a new length, among these, too.
    fn count_failed_change(&mut self)
        ensures failed { Rose self.old.faults self.new.faults }
        ensures later { self.old.faults ≤ self.new.faults }
        ensures changes { Rose self.old.failed_changes self.new.failed_changes }
        ensures seen { self.new.seen ≡ self.old.seen }
    {
        self.failed_changes = self.failed_changes.saturating_add(1);
        self.count_fault();
    }
}

/// It tells nothing of its bytes, as a file doesn't.
#[tactic(auto, using(tape_files::proofs::Edges::file_calls))]
impl Disk for Scratched {
    ghost use Rattle.tape_files.specs.Edge.{file_means};
    ghost use Rattle.tape_files.specs.EdgeLaws.{file_told_right, file_left_now};

    ghost means = { file_means };

    ghost told_right = { file_told_right };

    ghost left_now = { file_left_now };

    fn len(&mut self) -> Result<u64, DiskFailed> {
        match self.disk.len() {
            Ok(len) => {
                self.seen = len;
                Ok(len)
            }
            Err(failed) => {
                self.count_fault();
                Err(failed)
            }
        }
    }

    fn read_at(&mut self, place: u64, into: &mut [u8]) -> Result<usize, DiskFailed> {
        let end = place.saturating_add(into.len() as u64);
        if self.bad < end && place < self.bad.saturating_add(self.count) {
            self.count_fault();
            return Err(DiskFailed);
        }
        match self.disk.read_at(place, into) {
            Ok(count) => Ok(count),
            Err(failed) => {
                self.count_fault();
                Err(failed)
            }
        }
    }

    fn write_at(&mut self, _place: u64, _from: &[u8]) -> Result<(), DiskFailed> {
        self.count_failed_change();
        Err(DiskFailed)
    }

    fn set_len(&mut self, _length: u64) -> Result<(), DiskFailed> {
        self.count_failed_change();
        self.seen = 0;
        Err(DiskFailed)
    }

    fn sync(&mut self) -> Result<(), DiskFailed> {
        Ok(())
    }
}
