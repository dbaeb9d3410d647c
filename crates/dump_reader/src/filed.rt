//! A header that lies in a file of its own.

ghost use Rattle.std.specs.Prelude.{◌≡◌, ◌≤◌, ◌-◌, ◌++◌, length, take, replicate, IfSome, OnOk};
ghost use Rattle.dump_spec.specs.HeaderPlace.{filed_area};
ghost use Rattle.qic_base.specs.Disk.{Look, Stores};

use crate::piece::{SEGMENT, put_sectors, read_front};
use gf256_qic::DATA_SECTORS;
use qic_base::{Disk, DiskFailed, SECTOR, Sector};

/// Puts zero bytes behind the first ones.
fn clear_behind(bytes: &mut [u8; SEGMENT], len: usize)
    requires { len ≤ 32768 }
    ensures { bytes.new ≡ take len bytes.old ++ replicate (32768 - len) 0 }
{
    bytes[len..].fill(0);
}

/// Makes the first 29 of a segment's 32 sectors the data of the header that a file gives: its first 29,696 bytes, with zero bytes
/// behind its end. Its signature is not looked at.
pub fn read_filed_header<D: Disk>(disk: &mut D, sectors: &mut [Sector]) -> Result<(), DiskFailed>
    requires room { length sectors.old ≡ 32 }
    ensures did { Stores D.means disk.old disk.new Look result }
    ensures area { OnOk result (IfSome (D.means.told disk.old) (λ file. take 29 sectors.new ≡ filed_area file)) }
    ensures room { length sectors.new ≡ 32 }
{
    let mut bytes = [0; SEGMENT];
    let len = read_front(disk, 0, SECTOR * DATA_SECTORS, &mut bytes)?;
    clear_behind(&mut bytes, len);
    put_sectors(&bytes, sectors);
    Ok(())
}
