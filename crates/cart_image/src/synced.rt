//! Changes of a disk, each put on it by a sync.
ghost use Rattle.std.specs.Prelude.{◌≡◌, ◌+◌, ◌≤◌, length, OnOk};
ghost use Rattle.qic_base.specs.Disk.{IsSettled};
ghost use Rattle.cart_image.specs.Layout.{resize, put as put_steps};
ghost use Rattle.cart_image.specs.Run.{Runs};

use qic_base::{Disk, DiskFailed};

/// Writes bytes, and puts them on the disk.
pub fn put<D: Disk>(disk: &mut D, place: u64, bytes: &[u8]) -> Result<(), DiskFailed>
    requires { place + length bytes.now ≤ D.means.seen_len disk.old }
    ensures ran { Runs D.means disk.old disk.new (put_steps place bytes.now) result }
    ensures settled { IsSettled D.means disk.new }
    ensures seen { D.means.seen_len disk.new ≡ D.means.seen_len disk.old }
{
    disk.write_at(place, bytes)?;
    disk.sync()?;
    Ok(())
}

/// Makes the file this long, and puts that on the disk.
pub fn put_len<D: Disk>(disk: &mut D, len: u64) -> Result<(), DiskFailed>
    ensures ran { Runs D.means disk.old disk.new (resize len) result }
    ensures settled { IsSettled D.means disk.new }
    ensures seen { OnOk result (D.means.seen_len disk.new ≡ len) }
{
    disk.set_len(len)?;
    disk.sync()
}
