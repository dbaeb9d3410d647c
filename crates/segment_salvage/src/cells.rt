//! The sectors of cells: which of them hold zero bytes, and those that are lost.

ghost use Rattle.std.specs.Prelude.{◌≡◌, ◌==◌, ◌<◌, ◌≤◌, ◌^◌, ℕ, length};
ghost use Rattle.std.specs.List.{list_all};
ghost use Rattle.cartridge_spec.specs.Shape.{sector_at};
ghost use Rattle.qic_base.specs.CartridgeTerms.{is_lost};
ghost use Rattle.segment_salvage.specs.Filled.{filled_from};

use qic_base::{LostSet, SECTOR, Sector};

fn is_zero(sector: &Sector) -> bool
    ensures { result ≡ list_all (λ b. b == 0) sector.now }
{
    sector.iter().all(|byte| *byte == 0)
}

/// The places of the sectors of zero bytes.
pub(crate) fn zero_places(sectors: &[Sector]) -> LostSet
    requires { length sectors.now ≤ 32 }
    ensures zero { (place : ℕ) → place < length sectors.now →
        is_lost result place ≡ list_all (λ b. b == 0) (sector_at sectors.now place) }
    ensures within { result < 2 ^ length sectors.now }
{
    let mut zero = LostSet::from_mask(0);
    for place in 0..sectors.len() as u8 {
        if is_zero(&sectors[place as usize]) {
            zero = zero.with_place(place);
        }
    }
    zero
}

/// Puts zero bytes into the lost sectors.
pub(crate) fn fill_lost(sectors: &mut [Sector], lost: LostSet)
    requires { length sectors.old ≤ 32 }
    ensures { sectors.new ≡ filled_from lost 0 sectors.old }
{
    for place in 0..sectors.len() as u8 {
        if lost.contains(place) {
            sectors[place as usize] = [0; SECTOR];
        }
    }
}
