//! The cartridge that a drive holds, opened: put in and mounted.

ghost use Rattle.volume_store.specs.Opening.{OpenEnds, StartEnds};

use crate::room::Room;
use crate::store::Store;
use drive_states::Unit;
use host_driver::Host;
use qic_base::{StoreFault, Tape, TapeFailed};

/// Puts the cartridge in and starts a host on it; `None` where the drive holds no cartridge.
pub fn start<T: Tape>(unit: &mut Unit<T>) -> Result<Option<Host>, TapeFailed>
    ensures { StartEnds T.means unit.old unit.new result }
{
    Host::start(unit)
}

/// Puts the cartridge in and mounts it; `None` where the drive holds no cartridge.
pub fn open<T: Tape>(unit: &mut Unit<T>, room: Room) -> Result<Option<Store>, StoreFault>
    ensures { OpenEnds T.means unit.old.tape unit.new result }
{
    let Some(host) = start(unit)? else {
        return Ok(None);
    };
    let store = Store::mount(unit, host, room.work, room.map, room.table)?;
    Ok(Some(store))
}
