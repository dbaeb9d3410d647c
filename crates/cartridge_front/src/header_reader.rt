//! The header in force read.

ghost use Rattle.std.specs.Prelude.{◌≡◌, ◌≢◌, ◌<◌, [], true, length, Some, IfOk, OnOk};
ghost use Rattle.qic_base.specs.TapeCalls.{Tells};
ghost use Rattle.drive_spec.specs.Terms.{is_referenced};
ghost use Rattle.drive_states.specs.Reach.{reads_in};
ghost use Rattle.host_driver.specs.Calls.{IsReady, Keeps};
ghost use Rattle.host_driver.specs.Fits.{AgreesWithTape, segments_of};
ghost use Rattle.qic_base.specs.Cartridge.{IsLength};
ghost use Rattle.cartridge_front.specs.Finding.{Leaves, RefusesMounting, FindsCopy, FindsHeader, NamesCause, TakesHeader, HasMap};

use bad_sector_map::BadMap;
use drive_states::Unit;
use header_segments::{Header, HeaderFault, decode};
use host_driver::Host;
use qic_base::{Sector, StoreFault, Tape, WHOLE};
use segment_io::{SegFault, Workspace, read_segment};
use table_solve::data_sectors;

/// The first copy of the header, segment 0; the second stands in segment 1.
const FIRST_COPY: u32 = 0;

const SECOND_COPY: u32 = 1;

/// The header and the map that a copy's data are, or None where they have no header's signature.
fn decode_copy(
    area: &[Sector],
    segments_per_track: u16,
    map: &mut BadMap,
) -> Result<Option<Header>, StoreFault>
    requires sectors { length area.now ≡ 29 }
    requires long { IsLength segments_per_track }
    ensures taken { TakesHeader area.now segments_per_track map.new result }
    ensures kind { RefusesMounting result }
    ensures cause { NamesCause segments_per_track result }
{
    match decode(area, segments_per_track, map) {
        Ok(header) => Ok(Some(header)),
        Err(HeaderFault::NoSignature) => Ok(None),
        Err(HeaderFault::Foreign { field, value }) => Err(StoreFault::Foreign { field, value }),
    }
}

/// The header and the map of a copy, 0 or 1, or None where the copy can't be read.
fn read_copy<T: Tape>(
    host: &mut Host,
    unit: &mut Unit<T>,
    copy: u32,
    work: &mut Workspace,
    map: &mut BadMap,
) -> Result<Option<Header>, StoreFault>
    requires ready { IsReady T.means host.old unit.old }
    requires mode { reads_in unit.old.drive.deck.mode ≡ true }
    requires referenced { is_referenced unit.old.drive.deck ≡ true }
    requires copy { copy < 2 }
    ensures did { Leaves T.means unit.old.tape unit.new.tape [] result }
    ensures found { result ≢ Err StoreFault.Tape → Tells T.means unit.old.tape (λ c.
        FindsCopy c copy (segments_of host.old) map.new result) }
    ensures kind { RefusesMounting result }
    ensures cause { NamesCause (segments_of host.old) result }
    ensures map { IfOk result (HasMap (segments_of host.old) map.new) }
    ensures keeps { Keeps T.means host.new unit.old unit.new }
{
    let segments_per_track = host.geometry().segments_per_track();
    match read_segment(host, unit, copy, WHOLE, work)? {
        Ok(_) => decode_copy(data_sectors(work), segments_per_track, map),
        Err(SegFault::Lost { .. } | SegFault::Mismatch { .. }) => Ok(None),
    }
}

/// Reads the header in force, that of copy 0 where it can be read and else that of copy 1, and its map of bad sectors.
pub fn read_header<T: Tape>(
    host: &mut Host,
    unit: &mut Unit<T>,
    work: &mut Workspace,
    map: &mut BadMap,
) -> Result<Header, StoreFault>
    requires ready { IsReady T.means host.old unit.old }
    requires mode { reads_in unit.old.drive.deck.mode ≡ true }
    requires agrees { AgreesWithTape T.means unit.old }
    ensures did { Leaves T.means unit.old.tape unit.new.tape [] result }
    ensures found { result ≢ Err StoreFault.Tape → Tells T.means unit.old.tape (λ c.
        FindsHeader c map.new result) }
    ensures kind { RefusesMounting result }
    ensures cause { NamesCause (segments_of host.old) result }
    ensures map { IfOk result (λ header. HasMap (segments_of host.old) map.new (Some header)) }
    ensures referenced { OnOk result (is_referenced unit.old.drive.deck ≡ true) }
    ensures keeps { Keeps T.means host.new unit.old unit.new }
{
    if !host.referenced() {
        return Err(StoreFault::NotFormatted);
    }
    match read_copy(host, unit, FIRST_COPY, work, map)? {
        Some(header) => Ok(header),
        None => match read_copy(host, unit, SECOND_COPY, work, map)? {
            Some(header) => Ok(header),
            None => Err(StoreFault::NotFormatted),
        },
    }
}
