//! The places of a segment's usable sectors among each other.

ghost use Rattle.std.specs.Prelude.{◌≡◌, ◌<◌, slice_index};
ghost use Rattle.cartridge_spec.specs.Shape.{usable_count, usable_places};

use qic_base::{LostSet, SECTORS};

/// The index in its segment of the usable sector at a place.
pub fn index_at(usable: u32, place: u8) -> u8
    requires { place < usable_count usable }
    ensures { result ≡ slice_index (usable_places usable) place }
{
    let mut before = 0;
    for index in 0..SECTORS {
        if LostSet::from_mask(usable).contains(index) {
            if before == place {
                return index;
            }
            before += 1;
        }
    }
    unreachable!("the segment has that many usable sectors")
}
