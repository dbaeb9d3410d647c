//! The place of one sector of a segment that can be read and holds wrong bytes.
#![tactic(auto)]

ghost use Rattle.std.specs.Prelude.{◌≡◌, ℕ, ◌<◌, ◌≤◌, ◌↔◌, List, length, OnErr};
ghost use Rattle.cartridge_spec.specs.Says.{unreadable_count};
ghost use Rattle.silent_locate.specs.Deep.{Deep, HasNoReading, cells_without};

pub mod laws;
mod places;
mod tries;

use erasure_solve::{SolveFault, solve};
use places::lost_among;
use qic_base::{LostSet, Sector};
use tries::mend_one;

/// What the sectors of a segment were.
#[derive(Clone, Copy, Debug, Drop, PartialEq, Eq)]
pub enum Located {
    /// Those that could be read were right.
    Agrees,
    /// All that could be read were right but the one at this place, which is mended.
    Wrong { place: u8 },
}

/// Why the sectors of a segment can't be had.
#[derive(Clone, Copy, Debug, Drop, PartialEq, Eq)]
pub enum LocateFault {
    /// More than three are lost: their number.
    TooMany { lost: u8 },
    /// No code block agrees with the others, nor, where at most one is lost, with all of them but one.
    Mismatch,
}

/// Makes 4 to 32 sectors a code block by changing the lost ones, whatever those hold before, and
/// where at most one is lost, one more that holds wrong bytes (QIC-80-MC). A place in `lost` past
/// the last sector is left out of account.
pub fn locate(sectors: &mut [Sector], lost: LostSet) -> Result<Located, LocateFault>
    requires least { 4 ≤ length sectors.old }
    requires most { length sectors.old ≤ 32 }
    ensures agrees { (block : List (List ℕ)) →
        ((result ≡ Ok Located.Agrees) × (sectors.new ≡ block))
        ↔ Deep (cells_without lost sectors.old) block None }
    ensures wrong { (place : ℕ) (block : List (List ℕ)) →
        ((result ≡ Ok (Located.Wrong place)) × (sectors.new ≡ block))
        ↔ Deep (cells_without lost sectors.old) block (Some place) }
    ensures too_many { (n : ℕ) → (result ≡ Err (LocateFault.TooMany n))
        ↔ ((unreadable_count (cells_without lost sectors.old) ≡ n) × (3 < n)) }
    ensures mismatch { (result ≡ Err LocateFault.Mismatch)
        ↔ ((unreadable_count (cells_without lost sectors.old) ≤ 3)
        × HasNoReading (cells_without lost sectors.old)) }
    ensures unchanged { OnErr result (sectors.new ≡ sectors.old) }
{
    let lost = lost_among(lost, sectors.len() as u8);
    match solve(sectors, lost) {
        Ok(()) => Ok(Located::Agrees),
        Err(SolveFault::TooMany { lost }) => Err(LocateFault::TooMany { lost }),
        Err(SolveFault::Mismatch) => match mend_one(sectors, lost) {
            Some(place) => Ok(Located::Wrong { place }),
            None => Err(LocateFault::Mismatch),
        },
    }
}
