//! The places of a segment, tried one by one as that of the wrong sector.

ghost use Rattle.std.specs.Prelude.{◌≡◌, ℕ, ◌<◌, ◌≤◌, ◌↔◌, length, IsTrue, OnSome, IfSome, IfNone};
ghost use Rattle.std.specs.Bool.{OnTrue, OnFalse};
ghost use Rattle.cartridge_spec.specs.Code.{IsCodeBlock};
ghost use Rattle.gf256_qic.specs.Code.{AgreesOutside, IsSolvable};
ghost use Rattle.erasure_solve.specs.Lost.{lost_count};
ghost use Rattle.silent_locate.specs.Tries.{lost_or};

use erasure_solve::Plan;
use qic_base::{LostSet, Sector};

/// Makes the sectors a code block by changing one of them besides the lost ones, and answers its
/// place. None where more than one is lost, or where there is no such place.
pub fn mend_one(sectors: &mut [Sector], lost: LostSet) -> Option<u8>
    requires least { 4 ≤ length sectors.old }
    requires most { length sectors.old ≤ 32 }
    ensures few { OnSome result (lost_count lost ≤ 1) }
    ensures block { OnSome result (IsCodeBlock sectors.new) }
    ensures others { IfSome result (λ place.
        AgreesOutside (lost_or lost place) sectors.old sectors.new) }
    ensures none { IfNone result ((place : ℕ) → lost_count lost ≤ 1 →
        place < length sectors.old → ¬ (IsSolvable (lost_or lost place) sectors.old)) }
    ensures unchanged { IfNone result (sectors.new ≡ sectors.old) }
{
    if lost.count() > 1 {
        return None;
    }
    for place in 0..sectors.len() as u8 {
        if mend_at(sectors, lost, place) {
            return Some(place);
        }
    }
    None
}

/// Makes the sectors a code block by changing the lost ones and the one at a place, if some code
/// block agrees with the others.
fn mend_at(sectors: &mut [Sector], lost: LostSet, place: u8) -> bool
    requires least { 4 ≤ length sectors.old }
    requires most { length sectors.old ≤ 32 }
    requires few { lost_count lost ≤ 1 }
    requires place { place < length sectors.old }
    ensures mended { IsTrue result ↔ IsSolvable (lost_or lost place) sectors.old }
    ensures block { OnTrue result (IsCodeBlock sectors.new) }
    ensures others { OnTrue result (AgreesOutside (lost_or lost place) sectors.old sectors.new) }
    ensures unchanged { OnFalse result (sectors.new ≡ sectors.old) }
{
    let Ok(plan) = Plan::new(sectors.len() as u8, lost.with_place(place)) else {
        return false;
    };
    if !plan.agrees(sectors) {
        return false;
    }
    plan.fill(sectors);
    true
}
