//! What a cartridge says, learnt by reads alone.

ghost use Rattle.std.specs.Prelude.{◌≡◌, ◌≢◌, ◌-◌, ◌*◌, [], true, length, take, IfOk, OnOk};
ghost use Rattle.qic_base.specs.TapeCalls.{Tells};
ghost use Rattle.qic117_commands.specs.Views.{is_primary};
ghost use Rattle.drive_spec.specs.Terms.{is_referenced};
ghost use Rattle.host_driver.specs.Calls.{IsReady};
ghost use Rattle.host_driver.specs.Fits.{AgreesWithTape, segments_of};
ghost use Rattle.cartridge_front.specs.Finding.{Leaves, NamesCause, RefusesMounting, HasWords, ShowsVolumes};
ghost use Rattle.cartridge_front.specs.Learning.{Learns};

use crate::header_reader::read_header;
use crate::volume_reader::read_volumes;
use bad_sector_map::BadMap;
use drive_states::Unit;
use header_segments::Header;
use host_driver::{Host, WriteProtected};
use qic_base::{StoreFault, Tape};
use qic117_commands::Mode;
use segment_io::Workspace;
use table_solve::Unread;
use volume_table::Table;

/// The header in force, and the sectors of the volume table's segment that the tape may hold otherwise.
#[derive(Clone, Copy)]
pub struct Learnt {
    /// The header in force.
    pub header: Header,
    /// The sectors that were lost or left out of account.
    pub unread: Unread,
}

/// Has the drive stop the tape and enter Primary mode.
pub fn enter_primary<T: Tape>(host: &mut Host, unit: &mut Unit<T>)
    requires ready { IsReady T.means host.old unit.old }
    ensures mode { unit.new.drive.deck.mode ≡ Mode.Primary }
    ensures cartridge { unit.new.drive.deck.cartridge ≡ unit.old.drive.deck.cartridge }
    ensures tape { unit.new.tape ≡ unit.old.tape }
    ensures ready { IsReady T.means host.new unit.new }
{
    host.halt(unit);
    match host.enter(unit, Mode::Primary) {
        Ok(()) => (),
        Err(WriteProtected) => unreachable!("Primary mode writes nothing"),
    }
}

/// Reads the header in force, the map of bad sectors and the list of volumes. The tape is only read.
pub fn learn<T: Tape>(
    host: &mut Host,
    unit: &mut Unit<T>,
    work: &mut Workspace,
    map: &mut BadMap,
    table: &mut Table,
) -> Result<Learnt, StoreFault>
    requires ready { IsReady T.means host.old unit.old }
    requires agrees { AgreesWithTape T.means unit.old }
    ensures did { Leaves T.means unit.old.tape unit.new.tape [] result }
    ensures found { result ≢ Err StoreFault.Tape → Tells T.means unit.old.tape (λ c.
        Learns c map.new work.new table.new result) }
    ensures kind { RefusesMounting result }
    ensures cause { NamesCause (segments_of host.old) result }
    ensures words { IfOk result (λ learnt.
        HasWords (segments_of host.new) map.new learnt.header) }
    ensures volumes { OnOk result
        (ShowsVolumes (take 29 work.new) (28 * segments_of host.new - 1) table.new) }
    ensures room { OnOk result (length work.new ≡ 32) }
    ensures mode { OnOk result (is_primary unit.new.drive.deck.mode ≡ true) }
    ensures referenced { OnOk result (is_referenced unit.new.drive.deck ≡ true) }
    ensures agrees { AgreesWithTape T.means unit.new }
    ensures size { T.means.size unit.new.tape ≡ T.means.size unit.old.tape }
    ensures ready { IsReady T.means host.new unit.new }
{
    enter_primary(host, unit);
    let header = read_header(host, unit, work, map)?;
    let unread = read_volumes(host, unit, work, table)?;
    Ok(Learnt { header, unread })
}
