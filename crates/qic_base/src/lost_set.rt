//! The sectors of a segment that cannot be read, as a set of places.

ghost use Rattle.std.specs.Prelude.{◌≡◌, ◌≢◌, ◌<◌, ◌↔◌, ◌^◌, ℕ, IsTrue, length};
ghost use Rattle.qic_base.specs.CartridgeTerms.{IsLost, with_place};
ghost use Rattle.qic_base.specs.Cartridge.{lost_places};

use std::marker::Model;

/// A set of places 0 to 31 among a segment's usable sectors. Contracts see its mask, in which
/// bit `p` stands for place `p`.
#[derive(Clone, Copy, Debug, PartialEq, Eq)]
pub struct LostSet {
    bits: u32,
}

impl Model for LostSet {
    ghost use Rattle.std.specs.Prelude.{ℕ};

    ghost Value = { ℕ };

    ghost view = { λ set. set.bits };

    ghost inverse = { λ mask. record { bits = mask } };
}

impl LostSet {
    /// The places whose bits are 1.
    pub fn from_mask(mask: u32) -> LostSet
        ensures { result ≡ mask }
    {
        LostSet { bits: mask }
    }

    /// The mask: bit `p` is 1 where place `p` is in the set.
    pub fn mask(&self) -> u32
        ensures { result ≡ self.now }
    {
        self.bits
    }

    /// Whether the place is in the set; no place from 32 on is.
    pub fn contains(&self, place: u8) -> bool
        ensures lost { IsTrue result ↔ IsLost self.now place }
        ensures within { IsTrue result → place < 32 }
    {
        let bits = self.bits;
        place < 32 && bits >> place & 1 == 1
    }

    /// The set with one place more.
    pub fn with_place(self, place: u8) -> LostSet
        requires { place < 32 }
        ensures set { result ≡ with_place self place }
        ensures more { IsLost result place }
        ensures others { (other : ℕ) → other ≢ place → IsLost result other ↔ IsLost self other }
        ensures below { (count : ℕ) → place < count → self < 2 ^ count → result < 2 ^ count }
    {
        LostSet::from_mask(self.mask() | 1 << place)
    }

    /// How many places are in the set, 0 to 32.
    pub fn count(&self) -> u8
        ensures { result ≡ length (lost_places self.now 32) }
    {
        self.bits.count_ones() as u8
    }
}
