//! Laws of the bad sector map that are proved of its definitions; the functions do nothing.

ghost use Rattle.cartridge_laws.specs.MapLaws.{MarkedAreUnusable, CapacityIsOfDataSectors};

/// A sector is usable exactly where the map does not mark it.
pub fn marked_are_unusable()
    ensures { MarkedAreUnusable }
{}

/// A segment carries 1,024 bytes in each of its data sectors.
pub fn capacity_is_of_data_sectors()
    ensures { CapacityIsOfDataSectors }
{}
