//! The list of volumes read.

ghost use Rattle.std.specs.Prelude.{◌≡◌, ◌≢◌, ℕ, ◌-◌, ◌*◌, [], true, length, take, Err, OnOk};
ghost use Rattle.qic_base.specs.TapeCalls.{Tells};
ghost use Rattle.drive_spec.specs.Terms.{is_referenced};
ghost use Rattle.drive_states.specs.Reach.{reads_in};
ghost use Rattle.host_driver.specs.Calls.{IsReady, Keeps};
ghost use Rattle.host_driver.specs.Fits.{segments_of};
ghost use Rattle.cartridge_front.specs.Finding.{Leaves, NamesCause, RefusesMounting, FindsVolumes, ShowsVolumes, DecodesTable, refusal_of};

use crate::table_reader::read_table;
use drive_states::Unit;
use host_driver::Host;
use qic_base::{ForeignField, Sector, StoreFault, TRACKS, Tape};
use segment_io::{SegFault, Workspace};
use table_solve::{Unread, data_sectors};
use volume_table::{Table, TableFault};

/// Why the table's segment has no data.
pub(crate) fn table_fault(fault: SegFault) -> StoreFault
    ensures { result ≡ refusal_of fault }
{
    match fault {
        SegFault::Lost { segment, lost } => StoreFault::Lost { segment, lost },
        SegFault::Mismatch { .. } => StoreFault::TableMismatch,
    }
}

/// The list of volumes that the table's data show, on a cartridge whose last segment is `last`, or the first slot at
/// fault.
fn decode_table(table: &mut Table, area: &[Sector], last: u32) -> Result<(), StoreFault>
    requires { length area.now ≡ 29 }
    ensures shown { DecodesTable area.now last table.new result }
    ensures kind { RefusesMounting result }
    ensures formatted { result ≢ Err StoreFault.NotFormatted }
    ensures cause { (n : ℕ) → NamesCause n result }
{
    match table.decode(area, last) {
        Ok(()) => Ok(()),
        Err(TableFault::ForeignSlot { slot }) => Err(StoreFault::Foreign {
            field: ForeignField::Slot,
            value: u32::from(slot),
        }),
        Err(TableFault::BadRange { slot }) => Err(StoreFault::Foreign {
            field: ForeignField::Range,
            value: u32::from(slot),
        }),
    }
}

/// Reads the volume table's segment and the list of volumes in its data. The answer is the sectors that the tape may
/// hold otherwise.
pub fn read_volumes<T: Tape>(
    host: &mut Host,
    unit: &mut Unit<T>,
    work: &mut Workspace,
    table: &mut Table,
) -> Result<Unread, StoreFault>
    requires ready { IsReady T.means host.old unit.old }
    requires mode { reads_in unit.old.drive.deck.mode ≡ true }
    requires referenced { is_referenced unit.old.drive.deck ≡ true }
    ensures did { Leaves T.means unit.old.tape unit.new.tape [] result }
    ensures found { result ≢ Err StoreFault.Tape → Tells T.means unit.old.tape (λ c.
        FindsVolumes c (28 * segments_of host.old - 1) work.new table.new result) }
    ensures kind { RefusesMounting result }
    ensures formatted { result ≢ Err StoreFault.NotFormatted }
    ensures cause { NamesCause (segments_of host.old) result }
    ensures shown { OnOk result
        (ShowsVolumes (take 29 work.new) (28 * segments_of host.old - 1) table.new) }
    ensures room { length work.new ≡ 32 }
    ensures keeps { Keeps T.means host.new unit.old unit.new }
{
    let last = TRACKS * u32::from(host.geometry().segments_per_track()) - 1;
    match read_table(host, unit, work)? {
        Ok(unread) => {
            decode_table(table, data_sectors(work), last)?;
            Ok(unread)
        }
        Err(fault) => Err(table_fault(fault)),
    }
}
