//! Arrays of bytes as sectors.

ghost use Rattle.std.specs.Prelude.{All};
ghost use Rattle.qic_base.specs.Cartridge.{IsSector};

use crate::Sector;

/// States that arrays of 1,024 bytes are sectors, and does nothing.
pub fn are_sectors(sectors: &[Sector])
    ensures { All IsSector sectors.now }
{
    for sector in sectors {
        is_sector(sector);
    }
}

fn is_sector(sector: &Sector)
    ensures { IsSector sector.now }
{
    let _bytes = sector.iter();
}
