//! Whether a file that holds no image may be taken for one to be made.

ghost use Rattle.std.specs.Prelude.{◌≡◌, IfOk, IfSome};
ghost use Rattle.qic_base.specs.Disk.{Look, Stores};
ghost use Rattle.image_kind.specs.Free.{is_segments as are_segments, is_stopped_len as length_stopped, is_part as part_of, is_unsigned as unsigned, free_by as by_length, is_free as free_bytes};

use cart_image::{CELLS_LEN, HEAD_LEN};
use qic_base::{Disk, DiskFailed, LONGEST};

/// A number of segments that a stop leaves in a file: none, some or all of a cartridge's; or twice those of one.
fn is_segments(count: u64) -> bool
    ensures { result ≡ are_segments count }
{
    let most = LONGEST as u64;
    count <= 28 * most || count % 56 == 0 && count <= 56 * most
}

/// A length that a stop leaves, in bytes.
#[tactic(auto, unfolding(crate::specs::Free::is_stopped_len))]
fn is_stopped_len(len: u64) -> bool
    ensures { result ≡ length_stopped len }
{
    len >= HEAD_LEN
        && (len - HEAD_LEN) % CELLS_LEN as u64 == 0
        && is_segments((len - HEAD_LEN) / CELLS_LEN as u64)
}

/// A byte that is zero, or the signature's.
fn is_part(byte: u8, letter: u8) -> bool
    ensures { result ≡ part_of byte letter }
{
    byte == 0 || byte == letter
}

/// Whether a head begins with zero, and then has the signature's bytes or zero.
#[tactic(auto, unfolding(crate::specs::Free::is_unsigned))]
fn is_unsigned(head: &[u8; 8]) -> bool
    ensures { result ≡ unsigned head.now }
{
    head[0] == 0
        && is_part(head[1], b'I')
        && is_part(head[2], b'C')
        && is_part(head[3], b'8')
        && is_part(head[4], b'0')
        && is_part(head[5], b'I')
        && is_part(head[6], b'M')
        && is_part(head[7], b'G')
}

/// Whether a file of this length that begins so is free.
fn is_free_by(len: u64, head: &[u8; 8]) -> bool
    ensures { result ≡ by_length len head.now }
{
    len == 0 || is_stopped_len(len) && is_unsigned(head)
}

/// Whether a file may be taken for an image to be made, where it is none: it is empty, or it is as a new image or an imported
/// one is left whose making was stopped.
pub fn is_free<D: Disk>(disk: &mut D) -> Result<bool, DiskFailed>
    ensures did { Stores D.means disk.old disk.new Look result }
    ensures free { IfOk result (λ free. IfSome (D.means.told disk.old) (λ bytes.
        free ≡ free_bytes bytes)) }
{
    let mut head = [0; 8];
    let count = disk.read_at(0, &mut head)?;
    let len = disk.len()?;
    Ok(if count == 8 {
        is_free_by(len, &head)
    } else {
        len == 0
    })
}
