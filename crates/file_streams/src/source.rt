//! A file as a source.

ghost use Rattle.std.specs.Prelude.{◌≡◌, ◌≤◌, ℕ, List, true, Some};
ghost use Rattle.qic_base.specs.Disk.{IsSettled};
ghost use Rattle.qic_base.specs.Tape.{Rose};

use qic_base::{Disk, DiskFailed, Source, SourceFailed};

/// A file that is read from its begin on. It counts the reads that failed.
#[derive(Drop)]
pub struct FileSource<D: Disk + Drop> {
    /// Nothing is pending in it, so a read that fails leaves its bytes as they were.
    disk: D,
    at: u64,
    faults: u64,
    ghost settled: { (bytes left : List ℕ) →
        D.means.told disk ≡ Some bytes → D.means.may_leave disk left → left ≡ bytes },
}

impl<D: Disk + Drop> FileSource<D> {
    ghost use Rattle.file_streams.specs.FileSource.{disk_of, source_means};

    /// A file of which nothing was read yet.
    pub fn new(disk: D) -> FileSource<D>
        requires { D.means.tells_stops disk ≡ true → IsSettled D.means disk }
        ensures { source_means.left result ≡ D.means.told disk }
    {
        FileSource {
            disk,
            at: 0,
            faults: 0,
        }
    }

    /// Counts a read that failed.
    fn fail(&mut self) -> SourceFailed
        ensures left { source_means.left self.new ≡ source_means.left self.old }
        ensures disk { disk_of self.new ≡ disk_of self.old }
        ensures rose { Rose (source_means.faults self.old) (source_means.faults self.new) }
        ensures later { source_means.faults self.old ≤ source_means.faults self.new }
    {
        self.faults = self.faults.saturating_add(1);
        SourceFailed
    }
}

impl<D: Disk + Drop> Source for FileSource<D> {
    ghost use Rattle.file_streams.specs.FileSource.{source_means};
    ghost use Rattle.file_streams.specs.SourceLaws.{keeps-itself, keeps-on};

    ghost means = { source_means };

    ghost keeps_itself = { keeps-itself };

    ghost keeps_on = { keeps-on };

    fn read(&mut self, into: &mut [u8]) -> Result<usize, SourceFailed> {
        match self.disk.read_at(self.at, into) {
            Ok(count) => match self.at.checked_add(count as u64) {
                Some(at) => {
                    self.at = at;
                    Ok(count)
                }
                // No file is so long: one that tells its bytes can't tell how many they are.
                None => match self.disk.len() {
                    Ok(_) => Ok(count),
                    Err(DiskFailed) => Err(self.fail()),
                },
            },
            Err(DiskFailed) => Err(self.fail()),
        }
    }
}
