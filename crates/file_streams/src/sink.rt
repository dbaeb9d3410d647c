//! A file as a sink.

ghost use Rattle.std.specs.Prelude.{◌≡◌, ◌==◌, ◌≤◌, ◌+◌, length, IfOk, IfSome, OnOk, OnErr};
ghost use Rattle.std.specs.Option.{option_and_then};
ghost use Rattle.qic_base.specs.Disk.{Look, Stores, Sync};
ghost use Rattle.qic_base.specs.Tape.{Rose};
ghost use Rattle.file_streams.specs.FileSink.{IsEnd, PieceBroke, PieceTook, longer_by};

use qic_base::{Disk, DiskFailed, Sink, SinkFailed};

/// A file that is written from its begin on, or none, which takes each byte and keeps none. It counts the writes that failed.
#[derive(Drop)]
pub struct FileSink<D: Disk + Drop> {
    disk: Option<D>,
    at: u64,
    faults: u64,
}

/// Whether a disk holds no byte.
fn holds_nothing<D: Disk>(disk: &mut D) -> Result<bool, DiskFailed>
    ensures empty { IfOk result (λ empty. IfSome (D.means.told disk.old) (λ bytes. empty ≡ (length bytes == 0))) }
    ensures told { OnOk result (D.means.told disk.new ≡ D.means.told disk.old) }
    ensures did { Stores D.means disk.old disk.new Look result }
{
    Ok(disk.len()? == 0)
}

/// Writes the bytes behind those at the end of the file, which gets longer by them, and answers where it ends then.
fn append<D: Disk>(disk: &mut D, at: u64, from: &[u8]) -> Result<u64, DiskFailed>
    ensures end { IfOk result (λ end. end ≡ at + length from.now) }
    ensures longer { OnOk result (IsEnd at (D.means.told disk.old) →
        D.means.told disk.new ≡ longer_by from.now (D.means.told disk.old)) }
    ensures took { OnOk result (PieceTook D.means disk.old disk.new at from.now) }
    ensures broke { OnErr result (PieceBroke D.means disk.old disk.new at) }
{
    let Some(end) = at.checked_add(from.len() as u64) else {
        return Err(DiskFailed);
    };
    disk.set_len(end)?;
    disk.write_at(at, from)?;
    Ok(end)
}

impl<D: Disk + Drop> FileSink<D> {
    ghost use Rattle.file_streams.specs.FileSink.{Called, HoldsNothing, BothFiles, IsFresh, IsOnDisk, LookBroke, SyncBroke, Took, bytes_of, file_of, place_of, sink_means};

    /// A file of which nothing was asked yet, or none.
    pub fn new(disk: Option<D>) -> FileSink<D>
        ensures fresh { IsFresh result }
        ensures bytes { bytes_of D.means result ≡ option_and_then D.means.told disk }
    {
        FileSink {
            disk,
            at: 0,
            faults: 0,
        }
    }

    /// Counts a call that failed.
    fn fail(&mut self)
        ensures rose { Rose ((sink_means D.means).faults self.old) ((sink_means D.means).faults self.new) }
        ensures later { (sink_means D.means).faults self.old ≤ (sink_means D.means).faults self.new }
        ensures some { 1 ≤ (sink_means D.means).faults self.new }
        ensures file { file_of self.new ≡ file_of self.old }
        ensures place { place_of self.new ≡ place_of self.old }
    {
        self.faults = self.faults.saturating_add(1);
    }

    /// Writes the bytes at its end.
    fn append(&mut self, from: &[u8]) -> Result<(), DiskFailed>
        ensures took { OnOk result (Took D.means self.old from.now self.new) }
        ensures stood { (sink_means D.means).faults self.new ≡ (sink_means D.means).faults self.old }
        ensures place { OnErr result (place_of self.new ≡ place_of self.old) }
        ensures broke { OnErr result (BothFiles (λ a b. PieceBroke D.means a b (place_of self.old))
            (file_of self.old) (file_of self.new)) }
    {
        if let Some(disk) = &mut self.disk {
            self.at = append(disk, self.at, from)?;
        }
        Ok(())
    }

    /// Whether the file holds no byte; it is asked before anything is written. Where there is none nothing is held.
    pub fn is_empty(&mut self) -> Result<bool, DiskFailed>
        requires { IsFresh self.old }
        ensures empty { IfOk result (λ empty. HoldsNothing D.means empty (file_of self.old)) }
        ensures kept { OnOk result (bytes_of D.means self.new ≡ bytes_of D.means self.old) }
        ensures fresh { OnOk result (IsFresh self.new) }
        ensures looked { OnOk result (Called D.means Look self.old self.new) }
        ensures failed { OnErr result (LookBroke D.means self.old self.new) }
    {
        match &mut self.disk {
            Some(disk) => holds_nothing(disk),
            None => Ok(true),
        }
    }

    /// Puts on the disk all that was written. A file of which a call failed is not whole.
    pub fn sync(&mut self) -> Result<(), DiskFailed>
        ensures kept { OnOk result (bytes_of D.means self.new ≡ bytes_of D.means self.old) }
        ensures on_disk { OnOk result (IsOnDisk D.means self.new) }
        ensures whole { OnOk result ((sink_means D.means).faults self.old ≡ 0) }
        ensures synced { OnOk result (Called D.means Sync self.old self.new) }
        ensures count { (sink_means D.means).faults self.new ≡ (sink_means D.means).faults self.old }
        ensures place { place_of self.new ≡ place_of self.old }
        ensures failed { OnErr result (SyncBroke D.means self.old self.new) }
    {
        if self.faults > 0 {
            return Err(DiskFailed);
        }
        match &mut self.disk {
            Some(disk) => disk.sync(),
            None => Ok(()),
        }
    }
}

impl<D: Disk + Drop> Sink for FileSink<D> {
    ghost use Rattle.std.specs.Prelude.{refl};
    ghost use Rattle.file_streams.specs.FileSink.{sink_means};
    ghost use Rattle.file_streams.specs.SinkLaws.{took-nothing, took-both};

    ghost means = { sink_means D.means };

    ghost took_nothing = { took-nothing D.means };

    ghost took_both = { took-both D.means };

    ghost took_told = { λ a b xs took. refl };

    fn write(&mut self, from: &[u8]) -> Result<usize, SinkFailed> {
        match self.append(from) {
            Ok(()) => Ok(from.len()),
            Err(DiskFailed) => {
                self.fail();
                Err(SinkFailed)
            }
        }
    }
}
