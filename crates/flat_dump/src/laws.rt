//! Laws of flat dumps. Each is the contract of a function that does nothing.

ghost use Rattle.flat_dump.specs.Laws.{DumpIsWhole, EachMapTells, ImportsOne, ImportIsWhole, MaskImports, FullMaskImports, BringsBack, StandsAgain};
ghost use Rattle.flat_dump.specs.ImageLaws.{CellShows, UnsignedIsNone};

/// A dump has 917,504 bytes for each segment per track.
pub fn dumps_are_whole()
    ensures { DumpIsWhole }
{}

/// The map of a cartridge reads, and rescues just the bytes of the sectors that hold some.
pub fn maps_tell_what_is_held()
    ensures { EachMapTells }
{}

/// A dump and a map are imported as one cartridge, which is whole; each mask of the sectors that were
/// rescued tells it, without a map that of all sectors.
pub fn imports_are_one()
    ensures one { ImportsOne }
    ensures whole { ImportIsWhole }
    ensures by_mask { MaskImports }
    ensures unmasked { FullMaskImports }
{}

/// A cartridge that is exported and imported again is the same one, each sector that held nothing a lost one, with the
/// referenced mark alone and in the newest layout.
pub fn exports_come_back()
    ensures { BringsBack }
{}

/// It stands for what the cartridge stood for.
pub fn comes_back_standing()
    ensures { StandsAgain }
{}

/// A file whose first byte is zero is no image.
pub fn unsigned_is_no_image()
    ensures { UnsignedIsNone }
{}

/// The cell of a sector is read as the sector.
pub fn cells_show_their_sectors()
    ensures { CellShows }
{}
