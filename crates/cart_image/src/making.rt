//! An image that is made from front to back, one segment behind the other, and becomes one by its first byte.

ghost use Rattle.std.specs.Prelude.{◌≡◌, ◌≤◌, length, drop, OnOk};
ghost use Rattle.qic_base.specs.Disk.{IsSettled};
ghost use Rattle.cart_image.specs.Layout.{head_len, cells_len, resize, made_head, append_steps, sign_steps};
ghost use Rattle.cart_image.specs.Run.{Runs};

use crate::layout::{CELLS_LEN, HEAD_LEN, MARK, SIGNATURE};
use crate::synced::{put, put_len};
use qic_base::{Disk, DiskFailed, write_u16, write_u64};

/// Makes the file as long as the head, and puts that on the disk.
pub fn begin<D: Disk>(disk: &mut D) -> Result<(), DiskFailed>
    ensures ran { Runs D.means disk.old disk.new (resize head_len) result }
    ensures seen { OnOk result (D.means.seen_len disk.new ≡ head_len) }
{
    put_len(disk, HEAD_LEN)
}

/// Writes the cells of a segment behind those of the segments before it.
pub fn append<D: Disk>(disk: &mut D, segment: u32, cells: &[u8]) -> Result<(), DiskFailed>
    requires { length cells.now ≡ cells_len }
    ensures ran { Runs D.means disk.old disk.new (append_steps segment cells.now) result }
    ensures seen { OnOk result (head_len ≤ D.means.seen_len disk.new) }
{
    let place = HEAD_LEN + CELLS_LEN as u64 * u64::from(segment);
    disk.set_len(place + CELLS_LEN as u64)?;
    disk.write_at(place, cells)
}

/// The head of an image of version 2, behind its first byte.
#[tactic(auto, unfolding(qic_base::specs::Field::overwritten, qic_base::specs::Field::little_endian_bytes))]
fn head_rest(segments_per_track: u16, referenced: bool) -> [u8; 63]
    ensures { result ≡ drop 1 (made_head referenced segments_per_track) }
{
    let signature: &[u8] = SIGNATURE;
    let mark = if referenced { MARK } else { 0 };
    let mut rest = [0; 63];
    rest[..7].copy_from_slice(&signature[1..]);
    write_u16(&mut rest, 7, 2);
    write_u16(&mut rest, 9, segments_per_track);
    rest[12] = mark;
    rest[13] = MARK;
    write_u64(&mut rest, 15, HEAD_LEN);
    rest
}

/// Makes the file an image of so many segments per track, with the referenced mark or without: puts the head on the
/// disk, and then its first byte.
pub fn sign<D: Disk>(
    disk: &mut D,
    segments_per_track: u16,
    referenced: bool,
) -> Result<(), DiskFailed>
    requires { head_len ≤ D.means.seen_len disk.old }
    ensures ran { Runs D.means disk.old disk.new (sign_steps referenced segments_per_track) result }
    ensures settled { IsSettled D.means disk.new }
    ensures seen { D.means.seen_len disk.new ≡ D.means.seen_len disk.old }
{
    put(disk, 1, &head_rest(segments_per_track, referenced))?;
    put(disk, 0, &[SIGNATURE[0]])
}

/// Makes the file empty.
pub fn clear<D: Disk>(disk: &mut D) -> Result<(), DiskFailed>
    ensures { Runs D.means disk.old disk.new (resize 0) result }
{
    put_len(disk, 0)
}
