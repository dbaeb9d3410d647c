//! A file as a disk.

ghost use Rattle.std.specs.Prelude.{◌≡◌, ◌-◌, ◌≤◌, ◌↔◌, Ok, Some, true, false, length, min, IfErr, IfOk, OnOk, OnErr, IsOk, IsSome};
ghost use Rattle.qic_base.specs.Tape.{Rose};
ghost use Rattle.qic_base.specs.Disk.{Look, WriteAt, SetLen, Sync, Stores};
ghost use Rattle.tape_files.specs.Answers.{GaveAll};
ghost use Rattle.tape_files.specs.Edge.{Whole, sync_kind, file_means};
ghost use Rattle.tape_files.specs.Failures.{failure_by, last_failure};

use crate::failure::Failure;
use crate::file::{DiskFile, ImageFile};
use crate::retry::read_from;
use qic_base::{Disk, DiskFailed};
use std::io;
use std::io::ErrorKind;
use std::marker::Model;

/// A file as a disk. A failure of the system is a failure of the call, counted, and what the system said is kept.
#[derive(Drop)]
pub struct FileDisk<F: DiskFile + Drop = ImageFile> {
    file: F,
    seen: u64,
    faults: u64,
    /// How many of the faults were writes, new lengths and syncs.
    failed_changes: u64,
    /// Why the last of the calls that failed did.
    failure: Option<Failure>,
    /// Whether the length may have changed since the last sync that succeeded.
    resized: bool,
    /// Whether this run made a write or a new length of it, or tried to.
    changed: bool,
}

impl<F: DiskFile + Drop> Model for FileDisk<F> {
    ghost use Rattle.std.specs.Prelude.{◌≤◌, IsSome};
    ghost use Rattle.tape_files.specs.Edge.{FileState};

    ghost Value = { FileState F };

    ghost view = { λ d. record {
      file = d.file;
      resized = d.resized;
      changed = d.changed;
      seen = d.seen;
      faults = d.faults;
      failed_changes = d.failed_changes;
      failure = d.failure;
    } };

    // What made a call fail is known.
    ghost invariant = { λ d. 1 ≤ d.faults → IsSome d.failure };
}

impl<F: DiskFile + Drop> FileDisk<F> {
    /// A file that was opened. It is synced first, bytes and length: a run before may have ended between a write and its
    /// sync, and what this run reads has to be on the disk.
    pub(crate) fn open(file: F) -> Result<FileDisk<F>, Failure>
        ensures synced { IfOk result (λ disk. F.synced Whole file disk.file) }
        ensures settled { IfOk result (λ disk. disk.resized ≡ false) }
        ensures unchanged { IfOk result (λ disk. disk.changed ≡ false) }
        ensures seen { IfOk result (λ disk. disk.seen ≡ 0) }
        ensures faults { IfOk result (λ disk. disk.faults ≡ 0) }
        ensures changes { IfOk result (λ disk. disk.failed_changes ≡ 0) }
    {
        let mut disk = FileDisk {
            file,
            seen: 0,
            faults: 0,
            failed_changes: 0,
            failure: None,
            resized: true,
            changed: false,
        };
        match disk.sync() {
            Ok(()) => Ok(disk),
            Err(DiskFailed) => Err(disk.failure.unwrap_or(Failure::Untold)),
        }
    }

    /// How many of its calls failed, or the greatest u64 where there were more.
    pub fn faults(&self) -> u64
        ensures { result ≡ self.now.faults }
    {
        self.faults
    }

    /// Asks once more for the length of a file that this run changed. One that has fewer bytes than these got shorter under
    /// the run: that is a failed call. A file that this run left alone isn't asked.
    #[tactic(auto, using(crate::proofs::Edges::file_calls))]
    pub fn require_len(&mut self, least: u64) -> Result<(), DiskFailed>
        ensures left_alone { self.old.changed ≡ false → IsOk result × (self.new ≡ self.old) }
        ensures whole { OnOk result (self.old.changed ≡ true → least ≤ self.new.seen) }
        ensures did { Stores file_means self.old self.new Look result }
        ensures kept { OnOk result ((self.new.failure ≡ self.old.failure) × (self.new.file ≡ self.old.file)) }
        ensures told { OnErr result (IsSome self.new.failure) }
    {
        if !self.changed {
            return Ok(());
        }
        let answer = self.file.len();
        match self.counted(all_there(answer, least)) {
            Ok(len) => {
                self.seen = len;
                Ok(())
            }
            Err(failed) => Err(failed),
        }
    }

    /// Counts a failure of the system, and keeps what it said.
    fn count_fault(&mut self, error: &io::Error)
        ensures failure { self.new.failure ≡ Some (failure_by error.now) }
        ensures failed { Rose self.old.faults self.new.faults }
        ensures later { self.old.faults ≤ self.new.faults }
        ensures changes { self.new.failed_changes ≡ self.old.failed_changes }
        ensures seen { self.new.seen ≡ self.old.seen }
        ensures file { self.new.file ≡ self.old.file }
        ensures resized { self.new.resized ≡ self.old.resized }
        ensures changed { self.new.changed ≡ self.old.changed }
    {
        self.failure = Some(Failure::of(error));
        self.faults = self.faults.saturating_add(1);
    }

    /// The answer of the system; a failure is counted.
    fn counted<T: Drop>(&mut self, answer: io::Result<T>) -> Result<T, DiskFailed>
        ensures value { IfOk result (λ value. answer ≡ Ok value) }
        ensures failure { IfErr answer (λ error. self.new.failure ≡ Some (failure_by error)) }
        ensures told { OnErr result (IsSome self.new.failure) }
        ensures succeeded { OnOk result (self.new ≡ self.old) }
        ensures failed { OnErr result (Rose self.old.faults self.new.faults) }
        ensures later { self.old.faults ≤ self.new.faults }
        ensures changes { self.new.failed_changes ≡ self.old.failed_changes }
        ensures seen { self.new.seen ≡ self.old.seen }
        ensures file { self.new.file ≡ self.old.file }
        ensures resized { self.new.resized ≡ self.old.resized }
        ensures changed { self.new.changed ≡ self.old.changed }
    {
        match answer {
            Ok(value) => Ok(value),
            Err(error) => {
                self.count_fault(&error);
                Err(DiskFailed)
            }
        }
    }

    /// The answer of the system to a write, a new length or a sync; a failure is counted among these, too.
    fn changed(&mut self, answer: io::Result<()>) -> Result<(), DiskFailed>
        ensures value { IfOk result (λ value. answer ≡ Ok value) }
        ensures failure { IfErr answer (λ error. self.new.failure ≡ Some (failure_by error)) }
        ensures succeeded { OnOk result (self.new ≡ self.old) }
        ensures failed { OnErr result (Rose self.old.faults self.new.faults) }
        ensures later { self.old.faults ≤ self.new.faults }
        ensures changes { OnErr result (Rose self.old.failed_changes self.new.failed_changes) }
        ensures seen { self.new.seen ≡ self.old.seen }
        ensures file { self.new.file ≡ self.old.file }
        ensures resized { self.new.resized ≡ self.old.resized }
        ensures changed { self.new.changed ≡ self.old.changed }
    {
        match self.counted(answer) {
            Ok(()) => Ok(()),
            Err(failed) => {
                self.failed_changes = self.failed_changes.saturating_add(1);
                Err(failed)
            }
        }
    }
}

impl FileDisk {
    /// Why the last call that failed did; none where none failed. Where a file is to be written that is opened for reading
    /// alone, that is the cause, whatever the system calls it.
    pub fn failure(&self) -> Option<Failure>
        ensures failure { result ≡ last_failure self.now }
        ensures told { 1 ≤ self.now.faults → IsSome result }
    {
        if self.failed_changes > 0 && self.file.reads_only() {
            Some(Failure::ReadAlone)
        } else {
            self.failure
        }
    }
}

/// The answer to a read that has so many bytes to give: one that ended before them failed.
fn all_given(answer: io::Result<usize>, least: usize) -> io::Result<usize>
    ensures given { IfOk result (λ n. (answer ≡ Ok n) × (least ≤ n)) }
    ensures cut { IsOk result ↔ GaveAll least answer }
{
    match answer {
        Ok(count) if count < least => Err(io::Error::from(ErrorKind::UnexpectedEof)),
        answer => answer,
    }
}

/// The answer to a look at the length of a file that has so many bytes; one with fewer was cut.
fn all_there(answer: io::Result<u64>, least: u64) -> io::Result<u64>
    ensures there { IfOk result (λ n. (answer ≡ Ok n) × (least ≤ n)) }
    ensures cut { IsOk result ↔ GaveAll least answer }
{
    match answer {
        Ok(len) if len < least => Err(io::Error::from(ErrorKind::UnexpectedEof)),
        answer => answer,
    }
}

impl<F: DiskFile + Drop> Disk for FileDisk<F> {
    ghost use Rattle.tape_files.specs.EdgeLaws.{file_told_right, file_left_now};

    ghost means = { file_means };

    ghost told_right = { file_told_right };

    ghost left_now = { file_left_now };

    #[tactic(auto, using(crate::proofs::Edges::file_calls))]
    fn len(&mut self) -> Result<u64, DiskFailed> {
        let answer = self.file.len();
        let len = self.counted(answer)?;
        self.seen = len;
        Ok(len)
    }

    #[tactic(auto, using(crate::proofs::Edges::file_calls))]
    fn read_at(&mut self, place: u64, into: &mut [u8]) -> Result<usize, DiskFailed>
        ensures did { Stores file_means self.old self.new Look result }
        ensures within { IfOk result (λ n. n ≤ length into.old) }

        // None that ends before the length that was seen: a file that is cut under the run is a failure.
        ensures uncut { IfOk result (λ n. min (length into.old) (self.old.seen - place) ≤ n) }
        ensures kept { OnOk result (self.new ≡ self.old) }
        ensures seen { self.new.seen ≡ self.old.seen }
    {
        let least = self.seen.saturating_sub(place).min(into.len() as u64) as usize;
        let answer = read_from(&self.file, place, into);
        self.counted(all_given(answer, least))
    }

    #[tactic(auto, using(crate::proofs::Edges::file_calls))]
    fn write_at(&mut self, place: u64, from: &[u8]) -> Result<(), DiskFailed>
        ensures did { Stores file_means self.old self.new (WriteAt place from.now) result }
        ensures seen { self.new.seen ≡ self.old.seen }
        ensures changed { self.new.changed ≡ true }
    {
        self.changed = true;
        let answer = self.file.write_all_at(from, place);
        self.changed(answer)
    }

    #[tactic(auto, using(crate::proofs::Edges::file_calls))]
    fn set_len(&mut self, length: u64) -> Result<(), DiskFailed>
        ensures did { Stores file_means self.old self.new (SetLen length) result }
        ensures seen { OnOk result (self.new.seen ≡ length) }
        ensures failed { OnErr result (self.new.seen ≡ 0) }
        ensures resized { self.new.resized ≡ true }
        ensures changed { self.new.changed ≡ true }
    {
        self.resized = true;
        self.changed = true;
        let answer = self.file.set_len(length);
        match self.changed(answer) {
            Ok(()) => {
                self.seen = length;
                Ok(())
            }
            Err(DiskFailed) => {
                self.seen = 0;
                Err(DiskFailed)
            }
        }
    }

    #[tactic(auto, using(crate::proofs::Edges::file_calls))]
    fn sync(&mut self) -> Result<(), DiskFailed>
        ensures did { Stores file_means self.old self.new Sync result }
        ensures seen { self.new.seen ≡ self.old.seen }

        // One call of the file's own, of the kind that its length asks for.
        ensures synced { OnOk result (
            F.synced (sync_kind self.old.resized) self.old.file self.new.file) }
        ensures settled { OnOk result (self.new.resized ≡ false) }
        ensures unsettled { OnErr result (self.new.resized ≡ self.old.resized) }
        ensures changed { self.new.changed ≡ self.old.changed }
        ensures succeeded { OnOk result (self.new.faults ≡ self.old.faults) }
    {
        let answer = if self.resized {
            self.file.sync_all()
        } else {
            self.file.sync_data()
        };
        self.changed(answer)?;
        self.resized = false;
        Ok(())
    }
}

#[cfg(test)]
mod tests {
    use super::*;
    use std::cell::Cell;
    use std::os::unix::fs::FileExt;
    use std::test::Fail;

    /// Counts its syncs, by kind, and fails where it is told to.
    #[derive(Drop)]
    struct Counting {
        fails: bool,
        whole: u32,
        data_alone: u32,
    }

    impl Counting {
        fn answer(&self) -> io::Result<()> {
            if self.fails {
                Err(io::Error::from_raw_os_error(5))
            } else {
                Ok(())
            }
        }
    }

    impl FileExt for Counting {
        fn read_at(&self, _into: &mut [u8], _place: u64) -> io::Result<usize> {
            Ok(0)
        }

        fn write_at(&self, from: &[u8], _place: u64) -> io::Result<usize> {
            Ok(from.len())
        }
    }

    impl DiskFile for Counting {
        ghost synced = { λ kind old new. Unit {0} };

        fn len(&self) -> io::Result<u64> {
            Ok(0)
        }

        fn set_len(&self, _length: u64) -> io::Result<()> {
            self.answer()
        }

        fn sync_all(&mut self) -> io::Result<()> {
            self.answer()?;
            self.whole = self.whole.saturating_add(1);
            Ok(())
        }

        fn sync_data(&mut self) -> io::Result<()> {
            self.answer()?;
            self.data_alone = self.data_alone.saturating_add(1);
            Ok(())
        }
    }

    fn open<F: DiskFile + Drop>(file: F) -> Result<FileDisk<F>, DiskFailed> {
        FileDisk::open(file).map_err(|_| DiskFailed)
    }

    fn make_counting(fails: bool) -> Counting {
        Counting {
            fails,
            whole: 0,
            data_alone: 0,
        }
    }

    /// Whether a sync succeeds, and how many of each kind have so far.
    type Synced = (bool, u32, u32);

    fn sync(disk: &mut FileDisk<Counting>, fails: bool) -> Synced {
        disk.file.fails = fails;
        let synced = disk.sync().is_ok();
        disk.file.fails = false;
        (synced, disk.file.whole, disk.file.data_alone)
    }

    /// The syncs behind an opening, behind a length that is set, the first of them failing, and behind a write.
    fn syncs() -> Result<[Synced; 4], DiskFailed> {
        let mut disk = open(make_counting(false))?;
        let opened = sync(&mut disk, false);
        disk.set_len(4)?;
        let resized = [sync(&mut disk, true), sync(&mut disk, false)];
        disk.write_at(0, b"")?;
        Ok([opened, resized[0], resized[1], sync(&mut disk, false)])
    }

    #[test]
    fn each_sync_is_one_of_the_kind_that_the_length_asks_for(rt: HostRuntime) -> Result<(), Fail> {
        let seen = (syncs()?, FileDisk::open(make_counting(true)).err());
        let want = [(true, 1, 1), (false, 1, 1), (true, 2, 1), (true, 2, 2)];
        assert_eq!(rt; seen, (want, Some(Failure::Number(5))));
        Ok(())
    }

    /// Gives and takes two bytes a call, of at most eight.
    #[derive(Drop)]
    struct Slow {
        bytes: Cell<[u8; 8]>,
        length: Cell<usize>,
    }

    impl FileExt for Slow {
        fn read_at(&self, into: &mut [u8], place: u64) -> io::Result<usize> {
            let bytes = self.bytes.get();
            let length = self.length.get().min(8);
            let place = place.min(8) as usize;
            let count = into.len().min(2).min(length.saturating_sub(place));
            into[..count].copy_from_slice(&bytes[place..place + count]);
            Ok(count)
        }

        fn write_at(&self, from: &[u8], place: u64) -> io::Result<usize> {
            let mut bytes = self.bytes.get();
            let place = place.min(8) as usize;
            let count = from.len().min(2).min(8 - place);
            bytes[place..place + count].copy_from_slice(&from[..count]);
            self.bytes.set(bytes);
            Ok(count)
        }
    }

    impl DiskFile for Slow {
        ghost synced = { λ kind old new. Unit {0} };

        fn len(&self) -> io::Result<u64> {
            Ok(self.length.get() as u64)
        }

        fn set_len(&self, length: u64) -> io::Result<()> {
            self.length.set(length.min(8) as usize);
            Ok(())
        }

        fn sync_all(&mut self) -> io::Result<()> {
            Ok(())
        }

        fn sync_data(&mut self) -> io::Result<()> {
            Ok(())
        }
    }

    type Read = (Result<usize, DiskFailed>, [u8; 8]);

    fn read(disk: &mut FileDisk<Slow>, place: u64) -> Read {
        let mut into = [b'-'; 8];
        (disk.read_at(place, &mut into), into)
    }

    /// What a write of five bytes leaves in a file that was made seven bytes long, as reads within it and behind it
    /// give it, and one once another hand cut it to four bytes.
    fn written() -> Result<[Read; 4], DiskFailed> {
        let mut disk = open(Slow {
            bytes: Cell::new(*b"........"),
            length: Cell::new(0),
        })?;
        disk.set_len(7)?;
        disk.write_at(1, b"taper")?;
        let whole = [read(&mut disk, 0), read(&mut disk, 3), read(&mut disk, 7)];
        disk.file.length.set(4);
        Ok([whole[0], whole[1], whole[2], read(&mut disk, 0)])
    }

    type CutRead = (Result<usize, DiskFailed>, u64, Option<Failure>);

    fn cut_read(disk: &mut FileDisk<Slow>) -> CutRead {
        (disk.read_at(2, &mut [0; 3]), disk.faults, disk.failure)
    }

    /// How often a disk failed, and why, that told seven bytes, one that told none, and one that told the four that a file
    /// had been cut to, each read from its third byte on into three.
    fn reads_of_a_cut_file() -> Result<[CutRead; 3], DiskFailed> {
        let mut disk = open(Slow {
            bytes: Cell::new(*b"shorten."),
            length: Cell::new(4),
        })?;
        let untold = cut_read(&mut disk);
        let _ = disk.len()?;
        let told = cut_read(&mut disk);
        disk.set_len(7)?;
        disk.file.length.set(4);
        Ok([cut_read(&mut disk), untold, told])
    }

    #[test]
    fn short_calls_go_on_and_a_file_that_is_cut_fails(rt: HostRuntime) -> Result<(), Fail> {
        let seen = (written()?, reads_of_a_cut_file()?);
        let written = [
            (Ok(7), *b".taper.-"),
            (Ok(4), *b"per.----"),
            (Ok(0), *b"--------"),
            (Err(DiskFailed), *b".tap----"),
        ];
        let cut = [
            (Err(DiskFailed), 1, Some(Failure::Shorter)),
            (Ok(2), 0, None),
            (Ok(2), 0, None),
        ];
        assert_eq!(rt; seen, (written, cut));
        Ok(())
    }
}
