//! The header of a fresh cartridge, and its two copies.

ghost use Rattle.std.specs.Prelude.{◌≡◌, ◌*◌, false, length, take};
ghost use Rattle.qic_base.specs.TapeCalls.{Does};
ghost use Rattle.drive_spec.specs.Deck.{segments_per_track};
ghost use Rattle.drive_spec.specs.Terms.{is_protected};
ghost use Rattle.host_driver.specs.Calls.{Keeps};
ghost use Rattle.cartridge_spec.specs.Formatting.{copy_writes};
ghost use Rattle.cartridge_spec.specs.Says.{whole_mask, with_parity};
ghost use Rattle.cartridge_laws.specs.HeaderTerms.{IsFreshArea};
ghost use Rattle.segment_io.specs.Calls.{CanWrite};
ghost use Rattle.formatter.specs.Calls.{IsAtStop, KeepsCartridge};
ghost use Rattle.formatter.specs.Formats.{WritesHeader};

use bad_sector_map::BadMap;
use drive_states::Unit;
use gf256_qic::DATA_SECTORS;
use header_segments::{Header, encode};
use host_driver::Host;
use qic_base::{LostSet, Name, Sector, Tape, TapeFailed, WHOLE};
use qic117_commands::Mode;
use segment_io::{Workspace, write_sectors};
use segment_parity::put_parity;
use tape_geometry::Geometry;

/// Writes both header copies of a cartridge that was just formatted, copy 0 first.
pub(crate) fn write_header<T: Tape>(
    host: &mut Host,
    unit: &mut Unit<T>,
    work: &mut Workspace,
    map: &BadMap,
    label: &Name,
    date: u32,
) -> Result<(), TapeFailed>
    requires stands { IsAtStop T.means host.old unit.old }
    requires writable { is_protected unit.old.drive.deck ≡ false }
    requires words { length map.now ≡ 28 * segments_per_track unit.old.drive.deck }
    ensures did { WritesHeader T.means (segments_per_track unit.old.drive.deck) label.now date
        map.now unit.old.tape unit.new.tape result }
    ensures room { length work.new ≡ 32 }
    ensures keeps { KeepsCartridge T.means host.new unit.old unit.new }
{
    spell(host.geometry(), label, date, map, work.sectors_mut());
    host.enter(unit, Mode::Primary).unwrap();
    write_copy(host, unit, 0, work)?;
    write_copy(host, unit, 1, work)
}

/// Makes the sectors those of a header copy: the data and their parity.
fn spell(geometry: Geometry, label: &Name, date: u32, map: &BadMap, sectors: &mut [Sector])
    requires words { length map.now ≡ 28 * geometry }
    requires room { length sectors.old ≡ 32 }
    ensures fresh { IsFreshArea geometry label.now date map.now (take 29 sectors.new) }
    ensures parity { sectors.new ≡ with_parity (take 29 sectors.new) }
{
    let header = Header {
        format_date: date,
        write_date: date,
        segments_per_track: geometry.segments_per_track(),
        label: *label,
        label_date: date,
    };
    encode(&header, map, &mut sectors[..DATA_SECTORS]);
    put_parity(sectors, DATA_SECTORS);
}

/// Writes the sectors of a header copy: 1 to 31, ascending, and then sector 0, without which the copy can't be read.
fn write_copy<T: Tape>(
    host: &mut Host,
    unit: &mut Unit<T>,
    copy: u32,
    work: &Workspace,
) -> Result<(), TapeFailed>
    requires can { CanWrite T.means host.old unit.old copy whole_mask }
    requires room { length work.now ≡ 32 }
    ensures did { Does T.means unit.old.tape unit.new.tape (copy_writes copy work.now) result }
    ensures keeps { Keeps T.means host.new unit.old unit.new }
{
    let last = LostSet::from_mask(1);
    let others = LostSet::from_mask(!1);
    write_sectors(host, unit, copy, WHOLE, others, work)?;
    write_sectors(host, unit, copy, WHOLE, last, work)
}
