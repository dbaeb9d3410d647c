//! A segment written.

ghost use Rattle.std.specs.Prelude.{◌≡◌, ◌<◌, ◌^◌, ◌++◌, [], ◌∷◌, drop};
ghost use Rattle.qic_base.specs.Step.{WriteSectors};
ghost use Rattle.qic_base.specs.TapeCalls.{Does};
ghost use Rattle.cartridge_spec.specs.Shape.{usable_count};
ghost use Rattle.host_driver.specs.Calls.{Keeps};
ghost use Rattle.segment_io.specs.Calls.{CanWrite, CanWriteFrom};
ghost use Rattle.segment_io.specs.Writes.{first_sectors};
ghost use Rattle.cartridge_laws.specs.Writes.{block_in, segment_writes, named_writes};

use crate::places::spread;
use drive_states::Unit;
use host_driver::Host;
use qic_base::{LostSet, SECTORS, Sector, Tape, TapeFailed, WHOLE};
use segment_parity::put_parity;
use segment_solve::{Workspace, count_usable};

/// Writes all usable sectors of a segment by one call: the data in the workspace, at the places before the last three, and
/// their parity, which is put into those first. The workspace has both in their places, also where the tape failed.
pub fn write_segment<T: Tape>(
    host: &mut Host,
    unit: &mut Unit<T>,
    segment: u32,
    usable: u32,
    work: &mut Workspace,
) -> Result<(), TapeFailed>
    requires { CanWrite T.means host.old unit.old segment usable }
    ensures did { Does T.means unit.old.tape unit.new.tape
        (segment_writes segment usable work.old) result }
    ensures parity { work.new ≡ block_in usable work.old ++ drop (usable_count usable) work.old }
    ensures keeps { Keeps T.means host.new unit.old unit.new }
{
    let data = count_usable(usable) - 3;
    let Some(sectors) = work.sectors_mut().as_mut_array() else {
        unreachable!("there are 32 sectors")
    };
    put_parity(sectors, usize::from(data));
    host.go_to(unit, segment);
    write_first(host, unit, segment, usable, sectors)
}

/// Writes the usable sectors from the first places by one call.
#[tactic(auto, using(crate::proofs::ChosenSectors::chosen_of_whole))]
fn write_first<T: Tape>(
    host: &mut Host,
    unit: &mut Unit<T>,
    segment: u32,
    usable: u32,
    sectors: &[Sector; 32],
) -> Result<(), TapeFailed>
    requires { CanWriteFrom T.means host.old unit.old segment 0 }
    ensures did { Does T.means unit.old.tape unit.new.tape
        (WriteSectors segment (first_sectors usable sectors.now) ∷ []) result }
    ensures keeps { Keeps T.means host.new unit.old unit.new }
{
    let written = LostSet::from_mask(usable);
    if usable == WHOLE {
        host.write_sectors(unit, segment, written, sectors)?;
        Ok(())
    } else {
        write_spread(host, unit, segment, usable, sectors)
    }
}

/// As `write_first`, where not all sectors are usable: the room for them at their indexes is taken only then.
#[inline(never)]
fn write_spread<T: Tape>(
    host: &mut Host,
    unit: &mut Unit<T>,
    segment: u32,
    usable: u32,
    sectors: &[Sector; 32],
) -> Result<(), TapeFailed>
    requires { CanWriteFrom T.means host.old unit.old segment 0 }
    ensures did { Does T.means unit.old.tape unit.new.tape
        (WriteSectors segment (first_sectors usable sectors.now) ∷ []) result }
    ensures keeps { Keeps T.means host.new unit.old unit.new }
{
    let spread = spread(sectors, usable);
    host.write_sectors(unit, segment, LostSet::from_mask(usable), &spread)?;
    Ok(())
}

/// Writes the usable sectors at these places, ascending, from the workspace. The places are below the number of usable
/// sectors.
pub fn write_sectors<T: Tape>(
    host: &mut Host,
    unit: &mut Unit<T>,
    segment: u32,
    usable: u32,
    places: LostSet,
    work: &Workspace,
) -> Result<(), TapeFailed>
    requires can { CanWrite T.means host.old unit.old segment usable }
    requires within { places < 2 ^ usable_count usable }
    ensures did { Does T.means unit.old.tape unit.new.tape
        (named_writes segment usable places work.now) result }
    ensures keeps { Keeps T.means host.new unit.old unit.new }
{
    host.go_to(unit, segment);
    let sectors = work.sectors();
    let mut place = 0;
    for index in 0..SECTORS {
        if LostSet::from_mask(usable).contains(index) {
            if places.contains(place) {
                host.write_sector(unit, segment, index, &sectors[place as usize])?;
            }
            place += 1;
        }
    }
    Ok(())
}
