//! The entries of a disk's record.

ghost use Rattle.std.specs.Prelude.{◌≡◌};

/// The change of a disk that a call was to make, without its bytes: a write has a place and a number of bytes, in
/// bytes.
#[derive(Clone, Copy, Debug, PartialEq, Eq)]
pub enum DiskChange {
    WriteAt(u64, usize),
    SetLen(u64),
    Sync,
}

/// What a disk in memory records: a call that was done, one that failed, or that a call which is not recorded failed,
/// and left nothing pending.
#[derive(Clone, Copy, Debug, PartialEq, Eq)]
pub enum DiskEntry {
    Made(DiskChange),
    Broke(DiskChange),
    Settled,
}

impl DiskEntry {
    ghost use Rattle.qic_mem.specs.DiskEntry.{leaves_pending};

    /// Whether something is pending behind it.
    pub(crate) fn is_pending(&self) -> bool
        ensures { result ≡ leaves_pending self.now }
    {
        match self {
            DiskEntry::Made(DiskChange::WriteAt(..) | DiskChange::SetLen(_)) => true,
            DiskEntry::Made(DiskChange::Sync) | DiskEntry::Broke(_) | DiskEntry::Settled => false,
        }
    }
}
