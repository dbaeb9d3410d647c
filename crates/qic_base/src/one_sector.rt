//! One sector read and written, by the calls for several.

ghost use Rattle.std.specs.Prelude.{◌≡◌, ◌≢◌, ◌<◌, ◌^◌, [], ◌∷◌, Ok, IfOk, length, slice_index_or};
ghost use Rattle.qic_base.specs.Cartridge.{view_at};
ghost use Rattle.qic_base.specs.Step.{write_sector};
ghost use Rattle.qic_base.specs.TapeCalls.{Does, Tells, IsPlaceOf, Reads, write_answer, chosen};

use crate::{LostSet, SECTOR, Sector, SectorRead, SectorWrite, Tape, TapeFailed};

/// The set of one sector, 0 to 31.
fn set_of(sector: u8) -> LostSet
    requires { sector < 32 }
    ensures { result ≡ 2 ^ sector }
{
    LostSet::from_mask(1 << sector)
}

/// Puts a sector's bytes into its entry.
fn put_in(sectors: &mut [Sector], sector: u8, from: &Sector)
    requires { sector < length sectors.old }
    ensures { slice_index_or sectors.new sector [] ≡ from.now }
{
    sectors[usize::from(sector)] = *from;
}

/// Puts a sector's bytes into its entry of 32: they are what is written where the set names that sector alone.
fn put_alone(sectors: &mut [Sector; 32], sector: u8, from: &Sector)
    requires { sector < 32 }
    ensures { chosen (2 ^ sector) sectors.new ≡ record { sector = sector; bytes = from.now } ∷ [] }
{
    put_in(sectors, sector, from);
}

/// Reads a sector. `into` is unchanged unless the answer is `Good`. The room for 32 sectors is taken only while it reads.
#[inline(never)]
pub fn read_sector<T: Tape>(
    tape: &mut T,
    segment: u32,
    sector: u8,
    into: &mut Sector,
) -> Result<SectorRead, TapeFailed>
    requires { IsPlaceOf T.means tape.old segment sector }
    ensures did { Does T.means tape.old tape.new [] result }
    ensures view { IfOk result (λ answer. Tells T.means tape.old (λ c.
        Reads (view_at c segment sector) into.old into.new answer)) }
    ensures unchanged { result ≢ Ok SectorRead.Good → into.new ≡ into.old }
    ensures size { T.means.size tape.new ≡ T.means.size tape.old }
{
    let mut sectors = [[0; SECTOR]; 32];
    let read = tape.read_sectors(segment, set_of(sector), &mut sectors)?;
    if read.good.contains(sector) {
        *into = sectors[usize::from(sector)];
        Ok(SectorRead::Good)
    } else if read.blank.contains(sector) {
        Ok(SectorRead::Blank)
    } else {
        Ok(SectorRead::Lost)
    }
}

/// Writes a sector. The room for 32 sectors is taken only while it writes.
#[inline(never)]
pub fn write_sector<T: Tape>(
    tape: &mut T,
    segment: u32,
    sector: u8,
    from: &Sector,
) -> Result<SectorWrite, TapeFailed>
    requires { IsPlaceOf T.means tape.old segment sector }
    ensures did { Does T.means tape.old tape.new (write_sector segment sector from.now ∷ []) result }
    ensures answer { IfOk result (λ answer. Tells T.means tape.old (λ c.
        answer ≡ write_answer (view_at c segment sector))) }
    ensures size { T.means.size tape.new ≡ T.means.size tape.old }
{
    let mut sectors = [[0; SECTOR]; 32];
    put_alone(&mut sectors, sector, from);
    let blank = tape.write_sectors(segment, set_of(sector), &sectors)?;
    Ok(if blank.contains(sector) {
        SectorWrite::Blank
    } else {
        SectorWrite::Taken
    })
}
