//! The volume table read again: settled, and written with one entry more.

ghost use Rattle.std.specs.Prelude.{◌≡◌, ◌≢◌, ◌⊎◌, ◌<◌, ◌++◌, ◌∷◌, [], true, length, take, OnOk, OnErr};
ghost use Rattle.qic_base.specs.TapeCalls.{Tells};
ghost use Rattle.cartridge_spec.specs.Table.{Shows};
ghost use Rattle.drive_spec.specs.Terms.{is_referenced};
ghost use Rattle.drive_states.specs.Reach.{reads_in};
ghost use Rattle.host_driver.specs.Calls.{IsReady, MayWrite, Keeps};
ghost use Rattle.host_driver.specs.Fits.{AgreesWithTape};
ghost use Rattle.cartridge_front.specs.Again.{AddsEntry, FaultUnread, FindsList, IsOfReading, SettlesAgain};
ghost use Rattle.cartridge_front.specs.Finding.{Leaves};
ghost use Rattle.volume_table.specs.Entry.{entry_of};

use crate::settling::settle;
use crate::table_reader::read_table;
use crate::table_writer::write_entry;
use crate::volume_reader::table_fault;
use drive_states::Unit;
use host_driver::Host;
use qic_base::{StoreFault, Tape};
use segment_io::Workspace;
use table_solve::{Unread, data_sectors};
use volume_table::{Entry, Table};

/// Reads the table's segment, whose data have to show the list. The answer is the sectors that the tape may hold
/// otherwise.
fn read_list<T: Tape>(
    host: &mut Host,
    unit: &mut Unit<T>,
    work: &mut Workspace,
    table: &Table,
) -> Result<Unread, StoreFault>
    requires ready { IsReady T.means host.old unit.old }
    requires mode { reads_in unit.old.drive.deck.mode ≡ true }
    requires referenced { is_referenced unit.old.drive.deck ≡ true }
    ensures did { Leaves T.means unit.old.tape unit.new.tape [] result }
    ensures found { result ≢ Err StoreFault.Tape → Tells T.means unit.old.tape (λ c.
        FindsList c work.new table.now result) }
    ensures kind { IsOfReading result }
    ensures shown { OnOk result (Shows (take 29 work.new) table.now) }
    ensures room { length work.new ≡ 32 }
    ensures keeps { Keeps T.means host.new unit.old unit.new }
{
    match read_table(host, unit, work)? {
        Ok(unread) => {
            if table.is_shown_by(data_sectors(work)) {
                Ok(unread)
            } else {
                Err(StoreFault::TableMismatch)
            }
        }
        Err(fault) => Err(table_fault(fault)),
    }
}

/// Reads the table's segment again, whose data have to show the list, and settles it. The cartridge isn't protected.
pub fn settle_again<T: Tape>(
    host: &mut Host,
    unit: &mut Unit<T>,
    work: &mut Workspace,
    table: &Table,
) -> Result<(), StoreFault>
    requires ready { IsReady T.means host.old unit.old }
    requires agrees { AgreesWithTape T.means unit.old }
    requires referenced { is_referenced unit.old.drive.deck ≡ true }
    requires writable { MayWrite unit.old.drive.deck }
    ensures did { SettlesAgain T.means unit.old.tape unit.new.tape table.now work.new result }
    ensures unread { FaultUnread T.means unit.old.tape unit.new.tape result }
    ensures kind { IsOfReading result }
    ensures keeps { Keeps T.means host.new unit.old unit.new }
{
    let unread = read_list(host, unit, work, table)?;
    settle(host, unit, unread, work)?;
    Ok(())
}

/// Reads the table's segment again, whose data have to show the list, and writes it with the entry in the next slot,
/// which is added to the list.
pub fn add_entry<T: Tape>(
    host: &mut Host,
    unit: &mut Unit<T>,
    entry: &Entry,
    work: &mut Workspace,
    table: &mut Table,
) -> Result<(), StoreFault>
    requires ready { IsReady T.means host.old unit.old }
    requires agrees { AgreesWithTape T.means unit.old }
    requires referenced { is_referenced unit.old.drive.deck ≡ true }
    requires writable { MayWrite unit.old.drive.deck }
    requires free { length table.old < 232 }
    ensures did { AddsEntry T.means unit.old.tape unit.new.tape table.old (entry_of entry.now) result }
    ensures kind { IsOfReading result }
    ensures list { OnOk result (table.new ≡ table.old ++ entry_of entry.now ∷ []) }
    ensures kept { result ≢ Err StoreFault.Tape → OnErr result (table.new ≡ table.old) }
    ensures either { (table.new ≡ table.old) ⊎ (table.new ≡ table.old ++ entry_of entry.now ∷ []) }
    ensures keeps { Keeps T.means host.new unit.old unit.new }
{
    read_list(host, unit, work, table)?;
    write_entry(host, unit, entry, work, table)?;
    Ok(())
}
