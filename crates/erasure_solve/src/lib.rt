//! The sectors of a segment that cannot be read, from the others.
#![tactic(auto)]

ghost use Rattle.std.specs.Prelude.{◌≡◌, ℕ, ◌<◌, ◌≤◌, ◌↔◌, length, IsTrue, IsOk, OnOk, OnErr};
ghost use Rattle.cartridge_spec.specs.Code.{IsCodeBlock};
ghost use Rattle.gf256_qic.specs.Code.{AgreesOutside, IsSolvable};
ghost use Rattle.qic_base.specs.CartridgeTerms.{is_lost};
ghost use Rattle.erasure_solve.specs.Lost.{lost_count, IsOnlyBlock};

pub use plan::Plan;
use qic_base::{LostSet, Sector};

mod coefficients;
pub mod laws;
mod plan;
mod values;

/// Why the lost sectors of a segment cannot be found.
#[derive(Clone, Copy, Debug, Drop, PartialEq, Eq)]
pub enum SolveFault {
    /// More than three places are lost: their number.
    TooMany { lost: u8 },
    /// No code block agrees with the sectors at the other places.
    Mismatch,
}

/// Makes 4 to 32 sectors a code block by changing the lost ones alone, whatever those hold before
/// (QIC-80-MC). A place in `lost` past the last sector counts as one more that is lost.
pub fn solve(sectors: &mut [Sector], lost: LostSet) -> Result<(), SolveFault>
    requires least { 4 ≤ length sectors.old }
    requires most { length sectors.old ≤ 32 }
    ensures block { OnOk result (IsCodeBlock sectors.new) }
    ensures others { OnOk result (AgreesOutside (is_lost lost) sectors.old sectors.new) }
    ensures only { OnOk result (IsOnlyBlock (is_lost lost) sectors.old sectors.new) }
    ensures solved { IsOk result ↔ ((lost_count lost ≤ 3) × IsSolvable (is_lost lost) sectors.old) }
    ensures too_many { (n : ℕ) →
        (result ≡ Err (SolveFault.TooMany n)) ↔ ((lost_count lost ≡ n) × (3 < n)) }
    ensures mismatch { (result ≡ Err SolveFault.Mismatch)
        ↔ ((lost_count lost ≤ 3) × ¬ (IsSolvable (is_lost lost) sectors.old)) }
    ensures unchanged { OnErr result (sectors.new ≡ sectors.old) }
{
    let plan = Plan::new(sectors.len() as u8, lost)?;
    if !plan.agrees(sectors) {
        return Err(SolveFault::Mismatch);
    }
    plan.fill(sectors);
    Ok(())
}

/// Whether the sectors are a code block (QIC-80-MC); fewer than 4 or more than 32 are none.
pub fn consistent(sectors: &[Sector]) -> bool
    ensures { IsTrue result ↔ IsCodeBlock sectors.now }
{
    match sectors.len() {
        4..=32 => Plan::of(sectors.len() as u8, &LostSet::from_mask(0)).agrees(sectors),
        _ => false,
    }
}
