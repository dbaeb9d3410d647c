//! The bytes of a disk in memory, without its failures and its record.

ghost use Rattle.std.specs.Prelude.{◌≡◌, ◌≤◌, ◌+◌, ◌-◌, ◌/◌, [], length, take, drop, min, IfOk};
ghost use Rattle.std.specs.Vec.{vec_capacity};
ghost use Rattle.qic_base.specs.Disk.{AreBytes, resized};
ghost use Rattle.qic_base.specs.Field.{overwritten};

use qic_base::NoMemory;
use std::alloc::Global;

/// The bytes of a disk whose calls never fail, and the length that was seen.
#[derive(Drop)]
pub(crate) struct DiskBytes {
    bytes: Vec<u8>,
    room: u64,
    seen: u64,
    ghost room_taken: { room ≤ vec_capacity bytes },
    ghost seen_within: { seen ≤ length bytes.items },
    ghost are_bytes: { AreBytes bytes.items },
}

#[tactic(auto, unfolding(crate::specs::DiskBytes::bytes_state))]
impl DiskBytes {
    ghost use Rattle.qic_mem.specs.DiskBytes.{bytes_state};

    /// No bytes, and room for `room` of them, which it takes at once.
    pub(crate) fn new(alloc: Global, room: u64) -> Result<Self, NoMemory>
        ensures { IfOk result (λ bytes. bytes_state bytes ≡ record { bytes = []; seen = 0; room = room }) }
    {
        Ok(DiskBytes {
            bytes: Vec::with_capacity(alloc, room as usize)?,
            room,
            seen: 0,
        })
    }

    /// The greatest number of bytes.
    pub(crate) fn room(&self) -> u64
        ensures { result ≡ (bytes_state self.now).room }
    {
        self.room
    }

    /// Tells the length.
    pub(crate) fn len(&mut self) -> u64
        ensures len { result ≡ length (bytes_state self.old).bytes }
        ensures state { bytes_state self.new ≡ record (bytes_state self.old) { seen = result } }
    {
        self.seen = self.bytes.len() as u64;
        self.seen
    }

    /// Forgets the length that was seen.
    pub(crate) fn forget(&mut self)
        ensures { bytes_state self.new ≡ record (bytes_state self.old) { seen = 0 } }
    {
        self.seen = 0;
    }

    /// Reads the bytes from a place on, as many as there are and fit, and answers how many.
    pub(crate) fn read_at(&self, place: u64, into: &mut [u8]) -> usize
        ensures amount { result ≡ min (length into.old) (length (bytes_state self.now).bytes - place) }
        ensures given { take result into.new ≡ take result (drop place (bytes_state self.now).bytes) }
    {
        let place = (place as usize).min(self.bytes.len());
        let count = into.len().min(self.bytes.len() - place);
        into[..count].copy_from_slice(&self.bytes[place..place + count]);
        count
    }

    /// Writes the bytes from a place on.
    pub(crate) fn write_at(&mut self, place: u64, from: &[u8])
        requires { place + length from.now ≤ length (bytes_state self.old).bytes }
        ensures { bytes_state self.new ≡ record (bytes_state self.old) {
          bytes = overwritten (bytes_state self.old).bytes place from.now;
        } }
    {
        overwrite(&mut self.bytes, place as usize, from);
    }

    /// Writes the first half of the bytes from a place on, as a write that fails does.
    pub(crate) fn write_half(&mut self, place: u64, from: &[u8])
        requires { place + length from.now ≤ length (bytes_state self.old).bytes }
        ensures { bytes_state self.new ≡ record (bytes_state self.old) {
          bytes = overwritten (bytes_state self.old).bytes place (take (length from.now / 2) from.now);
        } }
    {
        self.write_at(place, &from[..from.len() / 2]);
    }

    /// Makes the bytes this many; new ones are zero.
    pub(crate) fn set_len(&mut self, length: u64)
        requires { length ≤ (bytes_state self.old).room }
        ensures { bytes_state self.new ≡ record (bytes_state self.old) {
          bytes = resized length (bytes_state self.old).bytes;
          seen = length;
        } }
    {
        self.bytes.resize(length as usize, 0).unwrap();
        self.seen = length;
    }
}

/// Puts bytes over those from a place on.
#[tactic(auto, unfolding(qic_base::specs::Field::overwritten))]
fn overwrite(bytes: &mut [u8], place: usize, from: &[u8])
    requires { place + length from.now ≤ length bytes.old }
    ensures { bytes.new ≡ overwritten bytes.old place from.now }
{
    bytes[place..place + from.len()].copy_from_slice(from);
}
