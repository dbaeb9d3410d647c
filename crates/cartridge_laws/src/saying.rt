//! The laws of what segments say, and of what writes leave of them. Each is the contract of a function that does nothing, so that other crates can
//! rest on it; their proofs import the lemmas of this crate's `proofs`.

ghost use Rattle.cartridge_laws.specs.SayingLaws.{SaysIsFunction, SaysAlways, TableSaysIsFunction, TableSaysAlways, SaidIsTable, ReadAreSectors, CountOfCells, CellsAreViews, PlacesOfWhole, CellsOfWhole, WrittenIsSaid, WrittenIsLost, SaidIsWritten, SaidAreSectors, ZeroIsWritten, ZeroSaysZero, ZeroHasNoSignature, ZeroDoesNotRead};
ghost use Rattle.cartridge_laws.specs.ReadingLaws.{NothingIsHidden, SaysByNone, PlacesAreDataAndParity};
ghost use Rattle.cartridge_laws.specs.WritingLaws.{WritesLeaveData, WritesMakeReadable, WritesTouchOnly};

/// The cells of a segment say at most one thing: the code's distance of four leaves one block (QIC-80-MC).
pub fn says_is_function()
    ensures { SaysIsFunction }
{}

/// Cells whose readable ones hold sectors say something.
pub fn says_always()
    ensures { SaysAlways }
{}

/// The table's segment says at most one thing.
pub fn table_says_is_function()
    ensures { TableSaysIsFunction }
{}

/// A segment of 29 cells or more, whose readable ones hold sectors, says something as the table's.
pub fn table_says_always()
    ensures { TableSaysAlways }
{}

/// What the code says of the table's segment where no readable sector is left out of account is what the segment says,
/// but for a mismatch: then some are left out, by the sets.
pub fn said_is_table()
    ensures { SaidIsTable }
{}

/// Data of the table that are read as they are, are sectors.
pub fn read_are_sectors()
    ensures { ReadAreSectors }
{}

/// The cells of a cartridge's segment: as many as its usable sectors, and those that can be read hold sectors.
pub fn cells_of_segment()
    ensures count { CountOfCells }
    ensures views { CellsAreViews }
{}

/// A segment without a bad sector has the cells of sectors 0 to 31.
pub fn cells_of_whole_segment()
    ensures places { PlacesOfWhole }
    ensures cells { CellsOfWhole }
{}

/// What was written is what is said, or else the number of unreadable cells is.
pub fn written_is_said()
    ensures data_sectors { WrittenIsSaid }
    ensures lost { WrittenIsLost }
{}

/// What is said is as if it were written, and consists of sectors, three fewer than the cells.
pub fn said_is_written()
    ensures cells { SaidIsWritten }
    ensures sectors { SaidAreSectors }
{}

/// A segment of zero bytes is one to which zero bytes were written, with their parity.
pub fn zero_is_written()
    ensures { ZeroIsWritten }
{}

/// A header copy of zero bytes says zero bytes, which have no header's signature.
pub fn zero_says_no_header()
    ensures says { ZeroSaysZero }
    ensures signature { ZeroHasNoSignature }
    ensures copy { ZeroDoesNotRead }
{}

/// A reading that leaves no sector out of account is what the segment says.
pub fn nothing_is_hidden()
    ensures cells { NothingIsHidden }
    ensures says { SaysByNone }
{}

/// The usable sectors of a segment that carries data are those of data, and behind them those of parity (QIC-80-MC).
pub fn places_are_data_and_parity()
    ensures { PlacesAreDataAndParity }
{}

/// A segment that was written has the data and their parity in its usable sectors, all of which can be read where all
/// are live.
pub fn writes_leave_data()
    ensures cells { WritesLeaveData }
    ensures readable { WritesMakeReadable }
{}

/// Writes change no sector but those that they name.
pub fn writes_touch_only()
    ensures { WritesTouchOnly }
{}
