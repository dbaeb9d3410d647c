//! The outside below an image: a file of bytes.

ghost use Rattle.std.specs.Prelude.{◌≡◌, ◌+◌, ◌-◌, ◌≤◌, length, take, drop, min, IfOk, IfSome, OnOk, OnErr};
ghost use Rattle.qic_base.specs.Disk.{Meaning, Stores, Look, WriteAt, SetLen, Sync, IsToldRight, IsLeftNow};

/// A call of a disk failed.
#[derive(Clone, Copy, Debug, PartialEq, Eq)]
pub struct DiskFailed;

/// A file of bytes, as on a disk. Places and lengths are counted in bytes.
pub trait Disk {
    ghost means: { Meaning Self };

    /// The number of its bytes.
    fn len(&mut self) -> Result<u64, DiskFailed>
        ensures did { Stores means self.old self.new Look result }
        ensures len { IfOk result (λ n. IfSome (means.told self.old) (λ bytes. n ≡ length bytes)) }
        ensures seen { IfOk result (λ n. means.seen_len self.new ≡ n) }
        ensures failed { OnErr result (means.seen_len self.new ≡ means.seen_len self.old) };

    /// Reads the bytes from a place on, as many as there are and fit, and answers how many.
    fn read_at(&mut self, place: u64, into: &mut [u8]) -> Result<usize, DiskFailed>
        ensures did { Stores means self.old self.new Look result }
        ensures within { IfOk result (λ n. n ≤ length into.old) }
        ensures amount { IfOk result (λ n. IfSome (means.told self.old) (λ bytes.
            n ≡ min (length into.old) (length bytes - place))) }
        ensures given { IfOk result (λ n. IfSome (means.told self.old) (λ bytes.
            take n into.new ≡ take n (drop place bytes))) }
        ensures seen { means.seen_len self.new ≡ means.seen_len self.old };

    /// Writes the bytes from a place on. Until the next `sync` that succeeds a crash may leave any bytes there.
    fn write_at(&mut self, place: u64, from: &[u8]) -> Result<(), DiskFailed>
        requires { place + length from.now ≤ means.seen_len self.old }
        ensures did { Stores means self.old self.new (WriteAt place from.now) result }
        ensures seen { means.seen_len self.new ≡ means.seen_len self.old };

    /// Makes the file this long; new bytes are zero. Until the next `sync` that succeeds a crash may leave the old
    /// length, or the new one with any bytes past the old end.
    fn set_len(&mut self, length: u64) -> Result<(), DiskFailed>
        ensures did { Stores means self.old self.new (SetLen length) result }
        ensures seen { OnOk result (means.seen_len self.new ≡ length) }
        ensures failed { OnErr result (means.seen_len self.new ≡ 0) };

    /// Puts on the disk all that was written.
    fn sync(&mut self) -> Result<(), DiskFailed>
        ensures did { Stores means self.old self.new Sync result }
        ensures seen { means.seen_len self.new ≡ means.seen_len self.old };

    /// Told bytes are bytes, at least as many as were seen; a crash now may leave them.
    ghost told_right: { (s : Self) → IsToldRight means s };

    /// A crash since now might have left what one now may leave; and earlier moments count what later ones do.
    ghost left_now: { (s : Self) → IsLeftNow means s };
}
