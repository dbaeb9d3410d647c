//! The usable sectors of a segment, from their indexes to the first places of a buffer.

ghost use Rattle.std.specs.Prelude.{◌≡◌, ◌<◌, ◌^◌, ℕ, List, [], get_or, length, map, set};
ghost use Rattle.cartridge_spec.specs.Shape.{usable_count, usable_places};
ghost use Rattle.qic_base.specs.TapeCalls.{ReadsSectors};
ghost use Rattle.qic_base.specs.declared.tape.SectorView.{SectorView};
ghost use Rattle.segment_solve.specs.Gathered.{Gathered};

use qic_base::{LostSet, SECTORS, Sector};

/// Copies a sector to a place, where it stands elsewhere.
fn move_to(sectors: &mut [Sector], place: u8, index: u8)
    requires place { place < length sectors.old }
    requires index { index < length sectors.old }
    ensures { sectors.new ≡ set sectors.old place (get_or sectors.old index []) }
{
    if place != index {
        sectors[place as usize] = sectors[index as usize];
    }
}

/// Moves the usable sectors to the front, in order of index. The answer is the places there of those that are not good.
pub fn gather(sectors: &mut [Sector; 32], usable: u32, good: LostSet) -> LostSet
    ensures gathered { (blank : ℕ) (view : ℕ → SectorView) (before : List (List ℕ)) →
        ReadsSectors usable good blank view before sectors.old →
        Gathered (map view (usable_places usable)) result sectors.new }
    ensures within { result < 2 ^ usable_count usable }
    ensures room { length sectors.new ≡ 32 }
{
    let mut lost: u32 = 0;
    let mut place: u8 = 0;
    for index in 0..SECTORS {
        if LostSet::from_mask(usable).contains(index) {
            move_to(sectors, place, index);
            if !good.contains(index) {
                lost |= 1 << place;
            }
            place += 1;
        }
    }
    LostSet::from_mask(lost)
}
