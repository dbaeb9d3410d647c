//! The bad sector map of a cartridge.

ghost use Rattle.std.specs.Prelude.{◌≡◌, ◌*◌, ◌^◌, ◌<◌, ◌≤◌, [], ℕ, length, replicate, slice_index, slice_set, bit_or, IfOk};
ghost use Rattle.cartridge_laws.specs.HeaderTerms.{byte_in, words_in, IsInMap};
ghost use Rattle.cartridge_laws.specs.Segment.{sectors_of};
ghost use Rattle.cartridge_spec.specs.Shape.{mask_at, capacity, marked_sectors};

use crate::words::{SEGMENTS, clear_words, read_words, write_words};
use qic_base::{LONGEST, NoMemory, SECTOR, Sector};
use std::alloc::Global;
use std::marker::Model;

/// The sectors of each segment that are bad (QIC-80-MC), for at most 28 times `LONGEST` segments.
/// Contracts see the words of the map, one for each segment: bit `i` is 1 where sector `i` is bad.
#[derive(Drop)]
pub struct BadMap {
    words: Vec<u32>,
}

impl Model for BadMap {
    ghost use Rattle.std.specs.Prelude.{List, ℕ, ◌≤◌, ◌*◌};
    ghost use Rattle.std.specs.Vec.{vec_len, vec_capacity};
    ghost use Rattle.qic_base.specs.declared.TheConstants.{LONGEST};

    ghost Value = { List ℕ };

    ghost view = { λ map. map.words.items };

    ghost invariant = { λ map. (28 * LONGEST ≤ vec_capacity map.words)
        × (vec_len map.words ≤ 28 * LONGEST) };
}

/// The number of sectors whose bits are 1, 0 to 32.
fn count_sectors(bits: u32) -> u32
    ensures count { result ≡ length (sectors_of bits) }
    ensures few { result ≤ 32 }
{
    bits.count_ones()
}

impl BadMap {
    /// A map of no segments, with room for all: no later call takes memory.
    pub fn new(alloc: Global) -> Result<BadMap, NoMemory>
        ensures { IfOk result (λ map. map ≡ []) }
    {
        let words = Vec::with_capacity(alloc, SEGMENTS as usize)?;
        Ok(BadMap { words })
    }

    /// Makes it the map of so many segments, with no sector marked.
    pub fn reset(&mut self, segments: u32)
        requires { segments ≤ 28 * LONGEST }
        ensures { self.new ≡ replicate segments 0 }
    {
        clear_words(&mut self.words, segments);
    }

    /// Marks a sector, 0 to 31, as bad.
    pub fn mark(&mut self, segment: u32, sector: u8)
        requires segment { segment < length self.old }
        requires sector { sector < 32 }
        ensures { self.new ≡
            slice_set self.old segment (bit_or (slice_index self.old segment) (2 ^ sector)) }
    {
        self.words[segment as usize] |= 1 << sector;
    }

    /// The mask of a segment's usable sectors: bit `i` is 1 where sector `i` is not marked.
    pub fn usable(&self, segment: u32) -> u32
        requires { segment < length self.now }
        ensures { result ≡ mask_at self.now segment }
    {
        !self.words[segment as usize]
    }

    /// The bytes of data that a segment carries: 1,024 for each usable sector but three.
    pub fn capacity(&self, segment: u32) -> u32
        requires { segment < length self.now }
        ensures { result ≡ capacity (mask_at self.now segment) }
    {
        SECTOR as u32 * count_sectors(self.usable(segment)).saturating_sub(3)
    }

    /// The number of marked sectors.
    pub fn marked(&self) -> u32
        ensures { result ≡ marked_sectors self.now }
    {
        let mut count = 0;
        for word in &self.words {
            count += count_sectors(*word);
        }
        count
    }

    /// Makes it the map of so many segments, as the header's data area, 29 sectors, has it.
    pub fn read(&mut self, area: &[Sector], segments: u32)
        requires sectors { length area.now ≡ 29 }
        requires segments { segments ≤ 28 * LONGEST }
        ensures { self.new ≡ words_in area.now segments }
    {
        read_words(&mut self.words, area, segments);
    }

    /// Writes the map into the header's data area, 29 sectors. All other bytes stay.
    pub fn write(&self, area: &mut [Sector])
        requires { length area.old ≡ 29 }
        ensures words { words_in area.new (length self.now) ≡ self.now }
        ensures others { (k : ℕ) → ¬ (IsInMap (length self.now) k) →
            byte_in area.new k ≡ byte_in area.old k }
    {
        write_words(&self.words, area);
    }
}
