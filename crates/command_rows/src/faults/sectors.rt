//! The bytes of sectors, past the drive. Each of these calls looks at the cartridge first. Where that has not three
//! segments per track, they answer as where the tape fails.

ghost use Rattle.std.specs.Prelude.{◌≡◌, ◌+◌, ◌≤◌, ◌<◌};
ghost use Rattle.segment_parity.specs.Register.{pushed};

use qic_base::{Sector, SectorRead, Tape, TapeFailed, read_sector, write_sector};
use qic_mem::MemTape;
use segment_parity::Parity;

/// Puts the bytes of a sector into `into`, or leaves it as it is where the sector can't be read.
fn read(
    tape: &mut MemTape,
    segment: u32,
    sector: u8,
    into: &mut Sector,
) -> Result<SectorRead, TapeFailed>
    requires segment { segment < 84 }
    requires sector { sector < 32 }
{
    match tape.info()? {
        Some(info) if info.segments_per_track == 3 => read_sector(tape, segment, sector, into),
        _ => Err(TapeFailed),
    }
}

/// Writes a sector. Two calls of the tape.
pub fn write(tape: &mut MemTape, segment: u32, sector: u8, from: &Sector) -> Result<(), TapeFailed>
    requires segment { segment < 84 }
    requires sector { sector < 32 }
{
    match tape.info()? {
        Some(info) if info.segments_per_track == 3 => {
            write_sector(tape, segment, sector, from)?;
            Ok(())
        }
        _ => Err(TapeFailed),
    }
}

/// Makes a sector unreadable. Two calls of the tape.
pub fn wear(tape: &mut MemTape, segment: u32, sector: u8) -> Result<(), TapeFailed>
    requires segment { segment < 84 }
    requires sector { sector < 32 }
{
    match tape.info()? {
        Some(info) if info.segments_per_track == 3 => tape.wear(segment, sector),
        _ => Err(TapeFailed),
    }
}

/// Writes the first sector of a segment whose other data are zero bytes, and their parity. Eight calls of the tape.
pub fn write_first(tape: &mut MemTape, segment: u32, first: &Sector) -> Result<(), TapeFailed>
    requires { segment < 84 }
{
    let [a, b, c] = parity_of(first);
    write(tape, segment, 0, first)?;
    write(tape, segment, 29, &a)?;
    write(tape, segment, 30, &b)?;
    write(tape, segment, 31, &c)
}

/// Whether of the first 84 segments this one alone has sectors that were formatted and can't be read, those of the
/// mask.
pub fn is_lost_alone(tape: &mut MemTape, segment: u32, lost: u32) -> Result<bool, TapeFailed> {
    let mut alone = true;
    for other in 0..84 {
        alone &= lost_of(tape, other)? == if other == segment { lost } else { 0 };
    }
    Ok(alone)
}

/// The mask of a segment's sectors that were formatted and can't be read.
fn lost_of(tape: &mut MemTape, segment: u32) -> Result<u32, TapeFailed>
    requires { segment < 84 }
{
    let mut into = [0; 1024];
    let mut lost: u32 = 0;
    for sector in 0..32 {
        if read(tape, segment, sector, &mut into)? == SectorRead::Lost {
            lost |= 1 << sector;
        }
    }
    Ok(lost)
}

/// The mask of the sectors of segment 2 that are not readable, or do not hold their part of the data whose first sector
/// is this one, with zero bytes behind it, and of their parity.
pub fn faults(tape: &mut MemTape, first: &Sector) -> Result<u32, TapeFailed> {
    let [a, b, c] = parity_of(first);
    let mut mask: u32 = 0;
    for sector in 0..32 {
        let wanted = match sector {
            0 => first,
            29 => &a,
            30 => &b,
            31 => &c,
            _ => &[0; 1024],
        };
        if !holds(tape, sector, wanted)? {
            mask |= 1 << sector;
        }
    }
    Ok(mask)
}

/// Whether a sector of segment 2 holds these bytes.
fn holds(tape: &mut MemTape, sector: u8, wanted: &Sector) -> Result<bool, TapeFailed>
    requires { sector < 32 }
{
    let mut held = [0x55; 1024];
    Ok(read(tape, 2, sector, &mut held)? == SectorRead::Good && held == *wanted)
}

/// The parity of a segment's 29 data sectors, of which all but the first are zero bytes.
fn parity_of(first: &Sector) -> [Sector; 3] {
    let mut parity = Parity::new();
    parity.push(first);
    push_fourteen(&mut parity);
    push_fourteen(&mut parity);
    parity.finish()
}

/// Pushes fourteen sectors of zero bytes.
fn push_fourteen(parity: &mut Parity)
    requires { pushed parity.old ≤ 15 }
    ensures { pushed parity.new ≡ pushed parity.old + 14 }
{
    parity.push(&[0; 1024]);
    parity.push(&[0; 1024]);
    parity.push(&[0; 1024]);
    parity.push(&[0; 1024]);
    parity.push(&[0; 1024]);
    parity.push(&[0; 1024]);
    parity.push(&[0; 1024]);
    parity.push(&[0; 1024]);
    parity.push(&[0; 1024]);
    parity.push(&[0; 1024]);
    parity.push(&[0; 1024]);
    parity.push(&[0; 1024]);
    parity.push(&[0; 1024]);
    parity.push(&[0; 1024]);
}
