//! Sets of lost places, with fewer places.

ghost use Rattle.std.specs.Prelude.{ℕ, ◌<◌, ◌≤◌, ◌↔◌};
ghost use Rattle.qic_base.specs.CartridgeTerms.{IsLost};

use qic_base::LostSet;

/// The lost places below a number.
pub fn lost_among(lost: LostSet, count: u8) -> LostSet
    requires least { 0 < count }
    requires most { count ≤ 32 }
    ensures { (place : ℕ) → IsLost result place ↔ (IsLost lost place × (place < count)) }
{
    LostSet::from_mask(lost.mask() & (u32::MAX >> (32 - count)))
}
