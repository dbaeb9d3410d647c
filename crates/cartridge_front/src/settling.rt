//! The settling of the volume table: each sector of its segment that doesn't hold its part of the table's code block is
//! written (this project's profile).

ghost use Rattle.std.specs.Prelude.{◌≡◌, ◌<◌, ◌^◌, ◌==◌, ◌&&◌, ◌||◌, ◌++◌, ℕ, true, not, length, take};
ghost use Rattle.std.specs.Str.{bytes_eq};
ghost use Rattle.qic_base.specs.TapeCalls.{Does};
ghost use Rattle.qic117_commands.specs.Views.{is_primary};
ghost use Rattle.qic_base.specs.CartridgeTerms.{is_lost};
ghost use Rattle.drive_spec.specs.Terms.{is_protected, is_referenced};
ghost use Rattle.host_driver.specs.Calls.{IsReady, Keeps};
ghost use Rattle.cartridge_front.specs.Settling.{collected_block, is_stale, mending_steps};

use crate::table_writer::write_places;
use drive_states::Unit;
use gf256_qic::DATA_SECTORS;
use host_driver::Host;
use qic_base::{LostSet, Sector, Tape, TapeFailed};
use segment_io::Workspace;
use segment_parity::parity_of;
use table_solve::{Unread, data_sectors};

/// The places of a whole segment's parity.
const PARITY_PLACES: [u8; 3] = [29, 30, 31];

/// The mask with the bit of a place where its sector isn't the one that belongs there.
fn with_stale(stale: u32, place: u8, held: &Sector, wanted: &Sector) -> u32
    requires { place < 32 }
    ensures { (i : ℕ) → is_lost result i ≡
        (is_lost stale i || (i == place && not (bytes_eq held.now wanted.now))) }
{
    if *held == *wanted {
        return stale;
    }
    stale | 1 << place
}

/// Puts the parity behind the data. The answer is the mask of the lost places, and of those of the parity that was
/// another.
fn replace_parity(sectors: &mut [Sector], lost: u32, parity: &[Sector; 3]) -> u32
    requires { length sectors.old ≡ 32 }
    ensures sectors { sectors.new ≡ take 29 sectors.old ++ parity.now }
    ensures stale { (i : ℕ) → i < 32 →
        is_lost result i ≡ is_stale lost sectors.old (take 29 sectors.old ++ parity.now) i }
{
    let stale = with_stale(lost, PARITY_PLACES[0], &sectors[29], &parity[0]);
    let stale = with_stale(stale, PARITY_PLACES[1], &sectors[30], &parity[1]);
    let stale = with_stale(stale, PARITY_PLACES[2], &sectors[31], &parity[2]);
    sectors[DATA_SECTORS..].copy_from_slice(parity);
    stale
}

/// Makes the workspace the code block of its data sectors. The answer is the lost places, and those of the parity that
/// was another.
fn renew_parity(lost: LostSet, work: &mut Workspace) -> LostSet
    requires { length work.old ≡ 32 }
    ensures block { work.new ≡ collected_block work.old }
    ensures stale { (i : ℕ) → i < 32 → is_lost result i ≡ is_stale lost work.old work.new i }
    ensures within { result < 2 ^ 32 }
{
    let parity = parity_of(data_sectors(work));
    let stale = replace_parity(work.sectors_mut(), lost.mask(), &parity);
    LostSet::from_mask(stale)
}

/// Settles the volume table's segment, whose sectors were read and solved: first the sector that was left out is
/// written, and then the others that the tape doesn't hold so, ascending. Nothing is written on a protected cartridge.
/// Where nothing is to be written the tape stays where it is.
pub fn settle<T: Tape>(
    host: &mut Host,
    unit: &mut Unit<T>,
    unread: Unread,
    work: &mut Workspace,
) -> Result<(), TapeFailed>
    requires ready { IsReady T.means host.old unit.old }
    requires mode { is_primary unit.old.drive.deck.mode ≡ true }
    requires referenced { is_referenced unit.old.drive.deck ≡ true }
    requires room { length work.old ≡ 32 }
    ensures did { Does T.means unit.old.tape unit.new.tape
        (mending_steps (is_protected unit.old.drive.deck) unread work.old) result }
    ensures data { take 29 work.new ≡ take 29 work.old }
    ensures keeps { Keeps T.means host.new unit.old unit.new }
{
    if host.protected() {
        return Ok(());
    }
    let stale = renew_parity(unread.lost, work);
    write_places(host, unit, unread.left_out, work)?;
    write_places(host, unit, stale, work)
}
