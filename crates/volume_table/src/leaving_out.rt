//! Which sectors of the table's segment its reading leaves out of account, where a data sector is unreadable and no code
//! block agrees with the readable ones (this project's profile).

ghost use Rattle.std.specs.Prelude.{◌≡◌, ◌<◌, ◌≤◌, ◌↔◌, ◌+◌, ◌++◌, ℕ, List, length, map, slice_get, unwrap_or, IfSome};
ghost use Rattle.qic_base.specs.Cartridge.{lost_places};
ghost use Rattle.qic_base.specs.declared.tape.SectorView.TheVariants.{Holds, Lost};
ghost use Rattle.cartridge_laws.specs.TableCells.{last_used};
ghost use Rattle.cartridge_laws.specs.Slots.{has_used_slot};
ghost use Rattle.cartridge_laws.specs.Segment.{hidden};
ghost use Rattle.cartridge_laws.specs.Says.{LosesData};
ghost use Rattle.cartridge_spec.specs.Shape.{sector_at};
ghost use Rattle.cartridge_spec.specs.Says.{shows_used_slot};
ghost use Rattle.volume_table.specs.Trials.{AreTrials, IsLastUsed, ShowsUsed, tried, with_last_used};

use crate::reading::DATA_SECTORS;
use crate::sets_tried::Trials;
use crate::slots::{SIGNATURE, slot_at};
use qic_base::{LostSet, Sector, read_u32};

/// The slots of a sector.
const SLOTS_A_SECTOR: u8 = 8;

/// Whether a data sector has a used slot.
fn has_used_slot(area: &[Sector], place: u8) -> bool
    requires sectors { length area.now ≡ 29 }
    requires within { place < 29 }
    ensures { result ≡ has_used_slot (sector_at area.now place) }
{
    for slot in 0..SLOTS_A_SECTOR {
        if read_u32(slot_at(area, SLOTS_A_SECTOR * place + slot), 0) == SIGNATURE {
            return true;
        }
    }
    false
}

/// Whether a data sector is not lost and has a used slot.
fn shows_used_slot(area: &[Sector], lost: LostSet, place: u8) -> bool
    requires sectors { length area.now ≡ 29 }
    requires within { place < 29 }
    ensures { result ≡ shows_used_slot
        (unwrap_or (slice_get (hidden lost (map Holds area.now)) place) Lost) }
{
    !lost.contains(place) && has_used_slot(area, place)
}

/// The last of the table's 29 data sectors, 0 to 28, that is not lost and has a slot that begins with `VTBL`.
pub fn last_used(area: &[Sector], lost: LostSet) -> Option<u8>
    requires { length area.now ≡ 29 }
    ensures greatest { (k : ℕ) → (result ≡ Some k) ↔ IsLastUsed area.now lost k }
    ensures none { (result ≡ None) ↔ ((i : ℕ) → ¬ (ShowsUsed area.now lost i)) }
    // The same by the cells of the segment: those that are lost can't be read, and the others hold the sectors.
    ensures cells { result ≡ last_used (hidden lost (map Holds area.now)) }
{
    let mut last = None;
    for place in 0..DATA_SECTORS {
        if shows_used_slot(area, lost, place) {
            last = Some(place);
        }
    }
    last
}

/// The lost places with the last sector that has a used slot, where there is one.
fn add_used(trials: &mut Trials, lost: LostSet, last_used: Option<u8>)
    requires { trials.old.count < 5 }
    ensures more { IfSome last_used (λ k. k < 32) → (sets : List ℕ) → AreTrials trials.old sets →
        AreTrials trials.new (sets ++ with_last_used lost last_used) }
    ensures count { trials.new.count ≤ trials.old.count + 1 }
{
    match last_used {
        Some(used) if used < 32 => trials.add(lost.with_place(used)),
        _ => {}
    }
}

/// The sets of places that the reading of the table's segment leaves out of account, of which 1 to 3 sectors are lost,
/// one of them of data: first those that are lost, and then, where one or two are, the sets with the parity sectors and
/// with the last data sector that has a used slot. No set has a place from 32 on.
pub fn trials(lost: LostSet, last_used: Option<u8>) -> Trials
    requires few { length (lost_places lost 32) ≤ 3 }
    requires loses_data { LosesData lost }
    ensures { IfSome last_used (λ k. k < 32) → AreTrials result (tried lost last_used) }
{
    let mut trials = Trials::of(lost);
    match lost.count() {
        1 => {
            trials.add(lost.with_place(31));
            trials.add(lost.with_place(29));
            add_used(&mut trials, lost, last_used);
            trials.add(lost.with_place(30).with_place(31));
        }
        2 if lost.contains(29) => add_used(&mut trials, lost, last_used),
        2 if lost.contains(30) => trials.add(lost.with_place(31)),
        _ => {}
    }
    trials
}
