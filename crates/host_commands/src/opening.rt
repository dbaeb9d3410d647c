//! The cartridge that the drive holds, opened: put in and mounted.

ghost use Rattle.std.specs.Prelude.{◌≡◌, ◌≢◌, ℕ};
ghost use Rattle.qic_base.specs.declared.store_fault.StoreFault.TheVariants.{Short};
ghost use Rattle.host_commands.specs.Opening.{OpeningEnds, StartAnswers, WritableEnds};
ghost use Rattle.host_commands.specs.Statuses.{store_status as status_of};

use command_spec::Status;
use drive_states::Unit;
use host_driver::Host;
use qic_base::{StoreFault, Tape, TapeFailed};
use volume_store::{Room, Store};

/// Puts the cartridge in and starts a host on it.
pub fn start<T: Tape>(unit: &mut Unit<T>) -> Result<Host, Status>
    ensures { StartAnswers T.means unit.old unit.new result }
{
    match volume_store::start(unit) {
        Ok(Some(host)) => Ok(host),
        Ok(None) => Err(Status::NoCartridge),
        Err(TapeFailed) => Err(Status::TapeFault),
    }
}

/// Puts the cartridge in and mounts it.
pub fn open<T: Tape>(unit: &mut Unit<T>, room: Room) -> Result<Store, Status>
    ensures { OpeningEnds T.means unit.old.tape unit.new result }
{
    match volume_store::open(unit, room) {
        Ok(Some(store)) => Ok(store),
        Ok(None) => Err(Status::NoCartridge),
        Err(fault) => Err(store_status(fault)),
    }
}

/// Puts the cartridge in to write on it: a protected one is refused, and else it is mounted.
pub fn open_writable<T: Tape>(unit: &mut Unit<T>, room: Room) -> Result<Store, Status>
    ensures { WritableEnds T.means unit.old.tape unit.new result }
{
    let host = start(unit)?;
    if host.protected() {
        return Err(Status::Protected);
    }
    match Store::mount(unit, host, room.work, room.map, room.table) {
        Ok(store) => Ok(store),
        Err(fault) => Err(store_status(fault)),
    }
}

/// The answer that a refusal of a store makes, or its fault.
pub fn store_status(fault: StoreFault) -> Status
    requires { (promised read : ℕ) → fault ≢ Short promised read }
    ensures { result ≡ status_of fault }
{
    match fault {
        StoreFault::NotFormatted => Status::NotFormatted,
        StoreFault::Foreign { field, value } => Status::Foreign { field, value },
        StoreFault::TableMismatch => Status::TableMismatch,
        StoreFault::Full { need, have } => Status::Full { need, have },
        StoreFault::NoVolume { number, count } => Status::NoVolume { number, count },
        StoreFault::Lost { segment, lost } => Status::Lost { segment, lost },
        StoreFault::Mismatch { segment } => Status::Mismatch { segment },
        StoreFault::Protected => Status::Protected,
        StoreFault::Source => Status::SourceFault,
        StoreFault::Sink => Status::SinkFault,
        StoreFault::Tape => Status::TapeFault,
        StoreFault::Short { .. } => unreachable!("an append of the whole input promises no bytes"),
    }
}
