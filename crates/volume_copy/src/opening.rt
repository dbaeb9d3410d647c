//! Both cartridges of a copy, opened.

ghost use Rattle.std.specs.Prelude.{◌≡◌, [], IfOk, MatchResult};
ghost use Rattle.volume_copy.specs.Runs.{AreOpened, BothRefused};

use crate::comparing::first_difference;
use command_spec::CopyStatus;
use drive_states::Unit;
use qic_base::{NoMemory, StoreFault, Tape};
use std::alloc::Global;
use volume_store::{Room, Store, open};

/// All working objects of a copy: no later call takes memory.
#[derive(Drop)]
pub struct Rooms {
    pub from: Room,
    pub to: Room,
}

impl Rooms {
    /// Takes the memory for both cartridges: their lists are empty.
    pub fn new(alloc: Global) -> Result<Rooms, NoMemory>
        ensures from { IfOk result (λ rooms. rooms.from.table ≡ []) }
        ensures to { IfOk result (λ rooms. rooms.to.table ≡ []) }
    {
        Ok(Rooms {
            from: Room::new(alloc)?,
            to: Room::new(alloc)?,
        })
    }
}

/// The cartridges of a copy, mounted.
#[derive(Drop)]
pub struct Mounted {
    pub from: Store,
    pub to: Store,
}

/// Opens both cartridges, the source first, and compares their lists. A target that is protected is refused once both are
/// mounted, also where it lacks no volume.
pub fn open_both<A: Tape, B: Tape>(
    rooms: Rooms,
    from: &mut Unit<A>,
    to: &mut Unit<B>,
) -> Result<Mounted, CopyStatus>
    ensures { MatchResult result
        (λ mounted. AreOpened A.means B.means from.old.tape from.new to.old.tape to.new mounted.from mounted.to)
        (λ answer. BothRefused A.means B.means from.old.tape from.new to.old to.new answer) }
{
    let source = match open(from, rooms.from) {
        Ok(Some(store)) => store,
        Ok(None) => return Err(CopyStatus::FromAbsent),
        Err(fault) => return Err(CopyStatus::From { fault }),
    };
    let target = match open(to, rooms.to) {
        Ok(Some(store)) => store,
        Ok(None) => return Err(CopyStatus::ToAbsent),
        Err(fault) => return Err(CopyStatus::To { fault }),
    };
    if target.protected() {
        return Err(CopyStatus::To {
            fault: StoreFault::Protected,
        });
    }
    match first_difference(&source, &target) {
        Some(number) => Err(CopyStatus::Differs { number }),
        None => Ok(Mounted {
            from: source,
            to: target,
        }),
    }
}
