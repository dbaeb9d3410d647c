//! The memory that commands work in.

use qic_base::NoMemory;
use std::alloc::Global;
use std::convert::Infallible;
use volume_store::Room;

/// What a command has its working objects from.
pub trait Memory {
    /// Why there are none.
    type Want;

    /// The working objects, in memory of their own.
    fn room(self) -> Result<Room, Self::Want>;
}

/// They are taken from the allocator.
impl Memory for Global {
    type Want = NoMemory;

    fn room(self) -> Result<Room, NoMemory> {
        Room::new(self)
    }
}

/// They are there.
impl Memory for Room {
    type Want = Infallible;

    fn room(self) -> Result<Room, Infallible> {
        Ok(self)
    }
}
