//! What finds the lost sectors of a segment, prepared once for the places that are lost.

ghost use Rattle.std.specs.Prelude.{◌≡◌, ◌≢◌, ℕ, ◌<◌, ◌≤◌, ◌↔◌, length, IsTrue, IsOk, IfOk};
ghost use Rattle.cartridge_spec.specs.Code.{IsCodeBlock};
ghost use Rattle.gf256_qic.specs.Code.{AgreesOutside, IsSolvable};
ghost use Rattle.qic_base.specs.CartridgeTerms.{is_lost};
ghost use Rattle.erasure_solve.specs.Lost.{lost_count, IsOnlyBlock};
ghost use Rattle.erasure_solve.specs.Correction.{AreDegrees, Agree};
ghost use Rattle.erasure_solve.specs.Plan.{planned_count, planned_lost, corrections_of, IsPlan, IsPlanFor, IsFull};

use crate::SolveFault;
use crate::coefficients::{Coefficients, NO_PLACE, correct};
use crate::values::Values;
use qic_base::{LostSet, Sector, are_sectors};

/// The coefficients that give the lost sectors of a segment, and those of the equations left over
/// with fewer than three lost, for each segment with as many sectors and the same places lost.
#[derive(Drop)]
pub struct Plan {
    count: u8,
    lost: u32,
    first: Coefficients,
    second: Coefficients,
    third: Coefficients,
}

impl Plan {
    /// The plan for 4 to 32 sectors of which these are lost. A place in `lost` past the last sector
    /// counts as one more that is lost.
    pub fn new(count: u8, lost: LostSet) -> Result<Plan, SolveFault>
        requires least { 4 ≤ count }
        requires most { count ≤ 32 }
        ensures plan { IfOk result (λ plan. IsPlanFor plan count lost) }
        ensures planned { IsOk result ↔ (lost_count lost ≤ 3) }
        ensures too_many { (n : ℕ) →
            (result ≡ Err (SolveFault.TooMany n)) ↔ ((lost_count lost ≡ n) × (3 < n)) }
        ensures no_mismatch { result ≢ Err SolveFault.Mismatch }
    {
        let number = lost.count();
        if number > 3 {
            return Err(SolveFault::TooMany { lost: number });
        }
        Ok(Plan::of(count, &lost))
    }

    /// The plan where at most three are lost.
    pub(crate) fn of(count: u8, lost: &LostSet) -> Plan
        requires least { 4 ≤ count }
        requires most { count ≤ 32 }
        requires few { lost_count lost.now ≤ 3 }
        ensures { IsPlanFor result count lost.now }
    {
        let degrees = degrees(lost, count);
        Plan {
            count,
            lost: lost.mask(),
            first: Coefficients::at(degrees[0], degrees[1], degrees[2]),
            second: Coefficients::at(degrees[1], degrees[0], degrees[2]),
            third: Coefficients::at(degrees[2], degrees[0], degrees[1]),
        }
    }

    /// For how many sectors it is, 4 to 32.
    pub fn count(&self) -> u8
        ensures { result ≡ planned_count self.now }
    {
        self.count
    }

    /// The places that are lost.
    pub fn lost(&self) -> LostSet
        ensures { result ≡ planned_lost self.now }
    {
        LostSet::from_mask(self.lost)
    }

    /// Whether some code block agrees with the sectors that are not lost (QIC-80-MC).
    pub fn agrees(&self, sectors: &[Sector]) -> bool
        requires plan { IsPlan self.now }
        requires count { length sectors.now ≡ planned_count self.now }
        ensures { IsTrue result ↔ IsSolvable (is_lost (planned_lost self.now)) sectors.now }
    {
        if self.is_full() {
            are_sectors(sectors);
            return true;
        }
        self.agrees_with(&Values::of(sectors))
    }

    /// Makes the sectors a code block by changing the lost ones alone, whatever those hold before.
    pub fn fill(&self, sectors: &mut [Sector])
        requires plan { IsPlan self.now }
        requires count { length sectors.old ≡ planned_count self.now }
        requires agrees { IsSolvable (is_lost (planned_lost self.now)) sectors.old }
        ensures block { IsCodeBlock sectors.new }
        ensures others { AgreesOutside (is_lost (planned_lost self.now)) sectors.old sectors.new }
        ensures only { IsOnlyBlock (is_lost (planned_lost self.now)) sectors.old sectors.new }
    {
        let mut rows = Values::of(sectors);
        correct(&mut rows, &self.first, &self.second);
        self.first.apply(&rows.reversed, sectors);
        self.second.apply(&rows.at_one, sectors);
        self.third.apply(&rows.at_generator, sectors);
    }

    /// Whether three places are lost, so that no equation is left over.
    fn is_full(&self) -> bool
        ensures { IsTrue result ↔ IsFull self.now }
    {
        self.first.has_place() && self.second.has_place() && self.third.has_place()
    }

    /// Whether the equations that are left over hold of a segment with these values.
    fn agrees_with(&self, values: &Values) -> bool
        ensures { IsTrue result ↔ Agree (corrections_of self.now values.now) }
    {
        if values.are_zero() {
            return true;
        }
        self.first.fits(values) && self.second.fits(values) && self.third.fits(values)
    }
}

/// The degrees of the lost places among `count`, and behind them degrees of no place.
fn degrees(lost: &LostSet, count: u8) -> [u8; 3]
    requires most { count ≤ 32 }
    requires few { lost_count lost.now ≤ 3 }
    ensures { AreDegrees lost.now count result }
{
    let mut degrees = [NO_PLACE, NO_PLACE + 1, NO_PLACE + 2];
    let mut found = 0;
    for place in 0..count {
        if lost.contains(place) {
            degrees[found] = count - 1 - place;
            found += 1;
        }
    }
    degrees
}
