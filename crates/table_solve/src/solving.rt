//! The table's data in the collected sectors of its segment.

ghost use Rattle.std.specs.Prelude.{◌≡◌, ◌↔◌, ◌<◌, ◌≤◌, ◌++◌, ℕ, List, Some, length, take, drop, IfSome, IsOkUnless};
ghost use Rattle.qic_base.specs.CartridgeTerms.{IsLost};
ghost use Rattle.qic_base.specs.Cartridge.{lost_places};
ghost use Rattle.qic_base.specs.declared.tape.SectorView.{SectorView};
ghost use Rattle.cartridge_laws.specs.Says.{LosesData};
ghost use Rattle.segment_solve.specs.Gathered.{Gathered};
ghost use Rattle.table_solve.specs.Reading.{SolvesFirst, SolvesTable};

use crate::unread::Unread;
use gf256_qic::DATA_SECTORS;
use qic_base::{LostSet, Sector, WHOLE};
use segment_solve::{SegFault, Workspace, solve_collected};
use volume_table::{TABLE_SEGMENT, Trials, last_used, trials};

/// The first 29 sectors of a workspace, where those of a whole segment's data stand.
pub fn data_sectors(work: &Workspace) -> &[Sector]
    ensures value { result.now ≡ take 29 work.now }
    ensures size { length result.now ≡ 29 }
{
    let sectors = work.sectors();
    &sectors[..DATA_SECTORS]
}

/// Solves the collected sectors by the first of these sets for which a code block agrees with the sectors outside it.
/// The answer is that set; where there is none, the sectors stay as they were.
pub fn solve_first(tried: &Trials, work: &mut Workspace) -> Option<LostSet>
    requires few { tried.now.count ≤ 5 }
    requires room { length work.old ≡ 32 }
    ensures solved { SolvesFirst (take tried.now.count tried.now.sets) work.old work.new result }
    ensures room { length work.new ≡ 32 }
{
    for index in 0..tried.count {
        let set = tried.sets[index as usize];
        match solve_collected(TABLE_SEGMENT, WHOLE, set, work) {
            Ok(()) => return Some(set),
            Err(_) => {}
        }
    }
    None
}

/// A copy of the parity sectors.
fn parity_of_table(work: &Workspace) -> [Sector; 3]
    requires { length work.now ≡ 32 }
    ensures { result ≡ drop 29 work.now }
{
    let sectors = work.sectors();
    [sectors[29], sectors[30], sectors[31]]
}

/// Puts parity sectors behind the data.
fn put_back(parity: &[Sector; 3], work: &mut Workspace)
    requires { length work.old ≡ 32 }
    ensures { work.new ≡ take 29 work.old ++ parity.now }
{
    let sectors = work.sectors_mut();
    sectors[DATA_SECTORS..].copy_from_slice(parity);
}

/// The last sector with a used slot, where the set has it.
fn left_out(set: LostSet, used: Option<u8>) -> LostSet
    requires { IfSome used (λ k. k < 29) }
    ensures { (i : ℕ) → IsLost result i ↔ ((used ≡ Some i) × IsLost set i) }
{
    match used {
        Some(place) if set.contains(place) => LostSet::from_mask(1 << place),
        _ => LostSet::from_mask(0),
    }
}

/// Finds the table's data in the collected sectors, by the code block that agrees with the readable ones or else with
/// those outside one of the further sets. The parity sectors stay as they were collected.
pub fn solve_table(lost: LostSet, work: &mut Workspace) -> Result<Unread, SegFault>
    requires room { length work.old ≡ 32 }
    requires few { length (lost_places lost 32) ≤ 3 }
    requires loses_data { LosesData lost }
    ensures solves { (cells : List SectorView) → length cells ≡ 32 →
        Gathered cells lost work.old → SolvesTable cells work.new result }
    ensures fault { IsOkUnless result (SegFault.Mismatch 2) }
    ensures room { length work.new ≡ 32 }
{
    let used = last_used(data_sectors(work), lost);
    let parity = parity_of_table(work);
    match solve_first(&trials(lost, used), work) {
        Some(set) => {
            put_back(&parity, work);
            Ok(Unread {
                lost,
                left_out: left_out(set, used),
            })
        }
        None => Err(SegFault::Mismatch {
            segment: TABLE_SEGMENT,
        }),
    }
}
