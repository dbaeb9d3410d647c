//! What is known where one sector of the table's segment silently holds other bytes. Each law is the contract of a function
//! that does nothing, so that other crates can rest on it; their proofs import the lemmas of this crate's `proofs`.

ghost use Rattle.cartridge_laws.specs.WrongTableLaws.{BetweenHasWrong, StoppedAppendHasWrong, NoStopLeavesWrong, LostWrongIsSolved, LostWrongMounts, RottenIsWrong, RottenComesBack};

/// Where no code block agrees with all readable sectors of the table's segment, but one with all but one, and a stop in an
/// append over a settled cartridge left this, that one is the last sector of parity, or the last one with a used slot. So
/// no such stop left it where it is another sector of data.
pub fn a_wrong_sector_of_the_table()
    ensures between { BetweenHasWrong }
    ensures stopped { StoppedAppendHasWrong }
    ensures no_stop { NoStopLeavesWrong }
{}

/// Once that sector is lost, and it is one of data, the table is that of the block of all others, and the next mount gives
/// it.
pub fn a_wrong_sector_lost()
    ensures solved { LostWrongIsSolved }
    ensures mounts { LostWrongMounts }
{}

/// One sector of a whole table's segment that silently holds other bytes is so found, and once it is lost the cartridge
/// comes back as the one that stood.
pub fn a_rotten_sector_of_the_table()
    ensures wrong { RottenIsWrong }
    ensures back { RottenComesBack }
{}
