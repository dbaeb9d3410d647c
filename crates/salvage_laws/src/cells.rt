//! The sectors of an exported cartridge, its header and its masks, as they are read of its dump and its map.

ghost use Rattle.salvage_laws.specs.CellLaws.{SectorsAreViews, CellsAreCells, HeaderIsInForce, MasksAreOfMap, StandingIsReadAs};

/// A sector of the dump is read as it is on the cartridge, lost where it holds nothing; and so the cells of a segment are those
/// of the cartridge.
pub fn cells_are_those_of_the_cartridge()
    ensures sectors { SectorsAreViews }
    ensures cells { CellsAreCells }
{}

/// The header that is found is the one in force, where header copy 0 hides no other one. The masks are those of its map.
pub fn header_is_in_force()
    ensures header { HeaderIsInForce }
    ensures masks { MasksAreOfMap }
{}

/// A cartridge that stands for a plain one hides no other header. So it is read as that one, where its table can be read and no
/// volume is compressed.
pub fn standing_is_read_as()
    ensures { StandingIsReadAs }
{}
