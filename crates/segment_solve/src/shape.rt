//! How many usable sectors a segment has.

ghost use Rattle.std.specs.Prelude.{◌≡◌, ◌≤◌};
ghost use Rattle.cartridge_spec.specs.Shape.{usable_count};

use qic_base::LostSet;

/// The number of usable sectors of a segment, 0 to 32: bit `i` of `usable` stands for sector `i`.
pub fn count_usable(usable: u32) -> u8
    ensures count { result ≡ usable_count usable }
    ensures most { result ≤ 32 }
{
    LostSet::from_mask(usable).count()
}
