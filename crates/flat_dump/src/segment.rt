//! The sectors of a segment, as a dump has them.

ghost use Rattle.std.specs.Prelude.{◌≡◌, [], replicate, IfOk};
ghost use Rattle.qic_base.specs.Cartridge.{zero_sector};
ghost use Rattle.qic_base.specs.TapeCalls.{Does, IsPlaceOf};
ghost use Rattle.flat_dump.specs.Seen.{AreSeen};

use qic_base::{LostSet, SECTOR, SECTORS, Sector, Tape, TapeFailed, WHOLE, are_sectors};

/// Puts zero bytes.
#[tactic(auto, unfolding(qic_base::specs::Cartridge::zero_sector))]
fn clear(sectors: &mut [Sector; 32])
    ensures { sectors.new ≡ replicate 32 zero_sector }
{
    *sectors = [[0; SECTOR]; SECTORS as usize];
}

/// Reads the 32 sectors of a segment, of which one that holds no bytes is zero bytes. Answers the word of those that hold
/// some.
pub fn read_segment<T: Tape>(
    tape: &mut T,
    segment: u32,
    sectors: &mut [Sector; 32],
) -> Result<u32, TapeFailed>
    requires { IsPlaceOf T.means tape.old segment 0 }
    ensures did { Does T.means tape.old tape.new [] result }
    ensures seen { IfOk result (AreSeen T.means tape.old segment sectors.new) }
    ensures size { T.means.size tape.new ≡ T.means.size tape.old }
{
    clear(sectors);
    let read = tape.read_sectors(segment, LostSet::from_mask(WHOLE), sectors)?;
    are_sectors(sectors);
    Ok(read.good.mask())
}
