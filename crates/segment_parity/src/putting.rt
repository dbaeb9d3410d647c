//! Parity put behind the data of a segment.

ghost use Rattle.std.specs.Prelude.{◌≡◌, ◌+◌, ◌≤◌, ◌++◌, length, take, drop, All};
ghost use Rattle.cartridge_spec.specs.Code.{parity_sectors};
ghost use Rattle.qic_base.specs.Cartridge.{IsSector};

use crate::parity_of;
use qic_base::Sector;

/// Puts the parity of the first `count` sectors, 1 to 29 data sectors of a segment, into the three behind them
/// (QIC-80-MC). What lies behind those stays.
pub fn put_parity(sectors: &mut [Sector], count: usize)
    requires least { 1 ≤ count }
    requires most { count ≤ 29 }
    requires room { count + 3 ≤ length sectors.old }
    ensures parity { sectors.new ≡ take count sectors.old ++ parity_sectors (take count sectors.old)
        ++ drop (count + 3) sectors.old }
    ensures data { All IsSector (take count sectors.old) }
{
    let parity = parity_of(&sectors[..count]);
    sectors[count..count + 3].copy_from_slice(&parity);
}
