//! A drive over a cartridge in memory, and trains on its cable. These functions have no clause on a drive, so the proof of a
//! test knows nothing of one but that it is a drive.

ghost use Rattle.std.specs.Prelude.{◌≤◌};

use drive_states::{FloppyAddr, Unit};
use qic_base::{Tape, TapeFailed, write_sector};
use qic_mem::MemTape;

/// Each byte of the sector that `write_one` writes.
pub const WRITTEN: u8 = 0xA5;

/// Makes a cartridge of three segments per track that is referenced, with the segments 0 and 4 formatted, and writes
/// the first sector of segment 4. Calls 0 to 4 of the tape make all this.
pub fn write_one(tape: &mut MemTape) -> Result<(), TapeFailed> {
    tape.renew(3)?;
    tape.set_referenced()?;
    tape.format_segment(0)?;
    tape.format_segment(4)?;
    write_sector(tape, 4, 0, &[WRITTEN; 1024])?;
    Ok(())
}

/// The address of that sector: segments lie four to a cylinder.
pub const FIRST_OF_FOUR: FloppyAddr = FloppyAddr {
    head: 0,
    cylinder: 1,
    sector: 1,
};

/// The address of a sector of segments 0 to 3, of 32 sectors each, counted from 1.
pub fn front(sector: u8) -> FloppyAddr {
    FloppyAddr {
        head: 0,
        cylinder: 0,
        sector,
    }
}

/// Sends a train of pulses. Answers the level that it leaves on the line.
pub fn train(unit: &mut Unit<MemTape>, pulses: u16) -> Result<bool, TapeFailed> {
    for _ in 0..pulses {
        unit.step();
    }
    unit.gap()?;
    Ok(unit.line())
}

/// The word that a report shows; None where it is not acknowledged, or does not end, with the level 1.
pub fn report(unit: &mut Unit<MemTape>, command: u16, bits: u8) -> Option<u16>
    requires { bits ≤ 16 }
{
    let acknowledged = train(unit, command) == Ok(true);
    let mut word = 0;
    for place in 0..bits {
        if train(unit, 2) == Ok(true) {
            word |= 1 << place;
        }
    }
    let ended = train(unit, 2) == Ok(true);
    (acknowledged && ended).then_some(word)
}
