//! The memory that a mounted cartridge works in.

ghost use Rattle.std.specs.Prelude.{◌≡◌, [], IfOk, length};

use bad_sector_map::BadMap;
use qic_base::NoMemory;
use segment_io::Workspace;
use std::alloc::Global;
use volume_table::Table;

/// All working objects of a mounted cartridge: no later call takes memory.
#[derive(Drop)]
pub struct Room {
    pub work: Workspace,
    pub map: BadMap,
    pub table: Table,
}

impl Room {
    /// Takes the memory: a workspace for a segment, and room for a map and a list, which are empty.
    pub fn new(alloc: Global) -> Result<Room, NoMemory>
        ensures work { IfOk result (λ room. length room.work ≡ 32) }
        ensures map { IfOk result (λ room. room.map ≡ []) }
        ensures table { IfOk result (λ room. room.table ≡ []) }
    {
        Ok(Room {
            work: Workspace::new(alloc)?,
            map: BadMap::new(alloc)?,
            table: Table::new(alloc)?,
        })
    }
}
