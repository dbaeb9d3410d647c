//! Sectors lent as one run of bytes.

ghost use Rattle.std.specs.Prelude.{◌≡◌, ◌*◌, ◌≤◌, length, take, drop};
ghost use Rattle.std.specs.Borrow.{sem};
ghost use Rattle.cartridge_spec.specs.Volumes.{bytes_in};
ghost use Rattle.sector_fill.specs.Flat.{LendsBytes};

use qic_base::{SECTOR, Sector};
use std::slice::from_raw_parts_mut;

/// The bytes of the first `count` sectors, one sector behind the other, and the other sectors.
pub fn split_bytes(sectors: &mut [Sector], count: usize) -> (&mut [u8], &mut [Sector])
    requires { count ≤ length sectors.old }
    ensures* writes_back { sem 𝓛 (LendsBytes sectors.entry count result) }
    ensures bytes { result.0.now ≡ bytes_in (take count sectors.old) }
    ensures size { length result.0.now ≡ 1024 * count }
    ensures rest { result.1.now ≡ drop count sectors.old }
{
    let len = count * SECTOR;
    let rest = sectors.len() - count;
    let start = sectors.as_mut_ptr();
    unsafe {
        (
            from_raw_parts_mut(start as *mut u8, len),
            from_raw_parts_mut(start.add(count), rest),
        )
    }
}
