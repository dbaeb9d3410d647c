//! The usable sectors of a segment, from the first places of a workspace to their indexes.

ghost use Rattle.std.specs.Prelude.{◌≡◌};
ghost use Rattle.qic_base.specs.TapeCalls.{chosen};
ghost use Rattle.segment_io.specs.Writes.{first_sectors};

use qic_base::{LostSet, SECTOR, SECTORS, Sector};

/// The usable sectors, which stand at the front in order of index, each at its index. The others are of zero bytes.
pub(crate) fn spread(sectors: &[Sector; 32], usable: u32) -> [Sector; 32]
    ensures { chosen usable result ≡ first_sectors usable sectors.now }
{
    let mut spread = [[0; SECTOR]; 32];
    let mut place: u8 = 0;
    for index in 0..SECTORS {
        if LostSet::from_mask(usable).contains(index) {
            spread[index as usize] = sectors[place as usize];
            place += 1;
        }
    }
    spread
}
