//! A new image written over a file.
ghost use Rattle.std.specs.Prelude.{◌≡◌, ◌≤◌, slice_index, IfOk, IfSome, OnOk};
ghost use Rattle.qic_base.specs.Disk.{IsSettled};
ghost use Rattle.cart_image.specs.Layout.{image_len as length_of, first_letter, clear_steps, renew_steps};
ghost use Rattle.cart_image.specs.Run.{Runs, Looked, Carried};

use crate::layout::{SIGNATURE, image_len};
use crate::making::{begin, sign};
use crate::reading::read_byte;
use crate::synced::{put, put_len};
use qic_base::{Disk, DiskFailed};

/// The first byte of the file; 0 where it is empty.
fn read_first<D: Disk>(disk: &mut D) -> Result<u8, DiskFailed>
    ensures looked { Looked D.means disk.old disk.new result }
    ensures byte { IfOk result (λ byte.
        IfSome (D.means.told disk.old) (λ bytes. byte ≡ slice_index bytes 0)) }
    ensures covers { IfOk result (λ byte. byte ≡ first_letter → 1 ≤ D.means.seen_len disk.new) }
{
    let len = disk.len()?;
    if len == 0 {
        return Ok(0);
    }
    read_byte(disk, 0)
}

/// Makes an image none.
fn clear_first<D: Disk>(disk: &mut D, first: u8) -> Result<(), DiskFailed>
    requires covers { first ≡ first_letter → 1 ≤ D.means.seen_len disk.old }
    requires settled { IsSettled D.means disk.old }
    ensures ran { Runs D.means disk.old disk.new (clear_steps first) result }
    ensures settled { IsSettled D.means disk.new }
{
    if first == SIGNATURE[0] {
        put(disk, 0, &[0])
    } else {
        Ok(())
    }
}

/// Writes a new image over a file whose first byte is this.
#[tactic(auto, unfolding(crate::specs::Layout::renew_steps))]
fn write_new<D: Disk>(disk: &mut D, segments_per_track: u16, first: u8) -> Result<(), DiskFailed>
    requires covers { first ≡ first_letter → 1 ≤ D.means.seen_len disk.old }
    requires settled { IsSettled D.means disk.old }
    ensures ran { Runs D.means disk.old disk.new (renew_steps segments_per_track first) result }
    ensures settled { IsSettled D.means disk.new }
    ensures seen { OnOk result (D.means.seen_len disk.new ≡ length_of segments_per_track) }
{
    clear_first(disk, first)?;
    begin(disk)?;
    put_len(disk, image_len(segments_per_track))?;
    sign(disk, segments_per_track, false)
}

/// Writes a new image, whatever the file holds.
pub fn renew<D: Disk>(disk: &mut D, segments_per_track: u16) -> Result<(), DiskFailed>
    requires settled { IsSettled D.means disk.old }
    ensures carried { Carried D.means disk.old disk.new
        (λ bytes. renew_steps segments_per_track (slice_index bytes 0)) result }
    ensures settled { IsSettled D.means disk.new }
    ensures seen { OnOk result (D.means.seen_len disk.new ≡ length_of segments_per_track) }
{
    let first = read_first(disk)?;
    write_new(disk, segments_per_track, first)
}
