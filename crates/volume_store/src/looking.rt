//! The cartridge that a drive holds, looked at: put in and read, and nothing of it settled.

ghost use Rattle.volume_store.specs.Looking.{RoomEnds};

use crate::appending::free_room;
use crate::opening::start;
use crate::room::Room;
use cartridge_front::learn;
use drive_states::Unit;
use qic_base::{StoreFault, Tape};

/// Puts the cartridge in and reads its header, its map and its volumes, with the refusals of a mounting. The answer is how
/// many bytes an append may have now, and `None` where the drive holds no cartridge. The tape is only read: its volume
/// table is not settled.
pub fn find_room<T: Tape>(unit: &mut Unit<T>, mut room: Room) -> Result<Option<u32>, StoreFault>
    ensures { RoomEnds T.means unit.old.tape unit.new.tape result }
{
    let Some(mut host) = start(unit)? else {
        return Ok(None);
    };
    learn(
        &mut host,
        unit,
        &mut room.work,
        &mut room.map,
        &mut room.table,
    )?;
    let segments = host.geometry().segments();
    Ok(Some(free_room(&room.map, &room.table, segments)))
}
