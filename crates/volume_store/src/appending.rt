//! The input of an append taken, and written into the free segments.

ghost use Rattle.std.specs.Prelude.{◌≡◌, ◌-◌, ◌+◌, ◌*◌, ◌≤◌, Some, None, true, length, IfSome};
ghost use Rattle.qic_base.specs.Alone.{reading};
ghost use Rattle.cartridge_spec.specs.Appending.{room};
ghost use Rattle.cartridge_laws.specs.Table.{IsSoundList, last_end};
ghost use Rattle.drive_spec.specs.Terms.{is_referenced};
ghost use Rattle.cartridge_spec.specs.Formatting.{IsLabel};
ghost use Rattle.host_driver.specs.Calls.{IsReady, MayWrite, Keeps};
ghost use Rattle.host_driver.specs.Fits.{segments_of};
ghost use Rattle.qic_base.specs.declared.TheConstants.{LONGEST};
ghost use Rattle.volume_store.specs.Appending.{InputIs, TakesNone, AskedFor};

use crate::store::capacity_between;
use bad_sector_map::BadMap;
use drive_states::Unit;
use host_driver::Host;
use qic_base::{Name, Source, SourceFailed, StoreFault, Tape};
use segment_io::Workspace;
use tape_script::skip;
use volume_input::{Length, Wanted, Written, take_volume};
use volume_table::{SLOTS, TABLE_SEGMENT, Table};

/// The last segment that is taken: that of the volume table, where there is no volume.
fn last_taken(table: &Table) -> u16
    ensures { result ≡ last_end table.now }
{
    match table.len() {
        0 => TABLE_SEGMENT as u16,
        count => table.entry(count - 1).end,
    }
}

/// The first segment behind the last volume.
fn first_free(table: &Table) -> u32
    ensures { result ≡ last_end table.now + 1 }
{
    u32::from(last_taken(table)) + 1
}

/// The bytes that a new volume may have on a cartridge of so many segments.
pub(crate) fn free_room(map: &BadMap, table: &Table, segments: u32) -> u32
    requires map { length map.now ≡ segments }
    requires least { 84 ≤ segments }
    requires most { segments ≤ 28 * LONGEST }
    requires list { IsSoundList (length map.now - 1) table.now }
    ensures { result ≡ room map.now table.now }
{
    if table.len() == SLOTS {
        return 0;
    }
    capacity_between(map, first_free(table) as u16, (segments - 1) as u16) as u32
}

/// Takes just so many bytes, where there is room for them.
fn take_promised<T: Tape, S: Source>(
    host: &mut Host,
    unit: &mut Unit<T>,
    map: &BadMap,
    table: &Table,
    count: u32,
    work: &mut Workspace,
    source: &mut S,
) -> Result<Written, StoreFault>
    requires ready { IsReady T.means host.old unit.old }
    requires referenced { is_referenced unit.old.drive.deck ≡ true }
    requires writable { MayWrite unit.old.drive.deck }
    requires map { length map.now ≡ 28 * segments_of host.old }
    requires list { IsSoundList (length map.now - 1) table.now }
    ensures ends { InputIs T.means S.means map.now table.now (Some count)
        (reading unit.old.tape source.old) (reading unit.new.tape source.new) result }
    ensures asked { AskedFor map.now table.now count source.old source.new result }
    ensures kept { S.means.keeps source.old source.new }
    ensures keeps { Keeps T.means host.new unit.old unit.new }
{
    let have = free_room(map, table, host.geometry().segments());
    if have == 0 || count > have {
        return Err(StoreFault::Full {
            need: u64::from(count),
            have: u64::from(have),
        });
    }
    take_volume(
        host,
        unit,
        map,
        first_free(table),
        Wanted {
            most: count,
            length: Length::Exact,
        },
        work,
        source,
    )
}

/// Takes all bytes, where there is room for any, and one more than there is room for where the source has it.
fn take_all<T: Tape, S: Source>(
    host: &mut Host,
    unit: &mut Unit<T>,
    map: &BadMap,
    table: &Table,
    have: u32,
    work: &mut Workspace,
    source: &mut S,
) -> Result<Written, StoreFault>
    requires ready { IsReady T.means host.old unit.old }
    requires referenced { is_referenced unit.old.drive.deck ≡ true }
    requires writable { MayWrite unit.old.drive.deck }
    requires map { length map.now ≡ 28 * segments_of host.old }
    requires have { have ≡ room map.now table.now }
    requires some { 1 ≤ have }
    ensures ends { InputIs T.means S.means map.now table.now None
        (reading unit.old.tape source.old) (reading unit.new.tape source.new) result }
    ensures kept { S.means.keeps source.old source.new }
    ensures keeps { Keeps T.means host.new unit.old unit.new }
{
    let written = take_volume(
        host,
        unit,
        map,
        first_free(table),
        Wanted {
            most: have,
            length: Length::AtMost,
        },
        work,
        source,
    )?;
    if written.bytes < have {
        return Ok(written);
    }
    if skip(source, 1)? > 0 {
        return Err(StoreFault::Full {
            need: u64::from(have) + 1,
            have: u64::from(have),
        });
    }
    Ok(written)
}

/// Takes one byte at most, where there is no room for any.
fn take_none<S: Source>(source: &mut S) -> StoreFault
    ensures ends { TakesNone S.means source.old source.new result }
    ensures kept { S.means.keeps source.old source.new }
{
    match skip(source, 1) {
        Ok(need) => StoreFault::Full {
            need: u64::from(need),
            have: 0,
        },
        Err(SourceFailed) => StoreFault::Source,
    }
}

/// Takes the input, and writes it into the free segments.
pub(crate) fn take_input<T: Tape, S: Source>(
    host: &mut Host,
    unit: &mut Unit<T>,
    map: &BadMap,
    table: &Table,
    promised: Option<u32>,
    work: &mut Workspace,
    source: &mut S,
) -> Result<Written, StoreFault>
    requires ready { IsReady T.means host.old unit.old }
    requires referenced { is_referenced unit.old.drive.deck ≡ true }
    requires writable { MayWrite unit.old.drive.deck }
    requires map { length map.now ≡ 28 * segments_of host.old }
    requires list { IsSoundList (length map.now - 1) table.now }
    ensures ends { InputIs T.means S.means map.now table.now promised
        (reading unit.old.tape source.old) (reading unit.new.tape source.new) result }
    ensures asked { IfSome promised (λ n. AskedFor map.now table.now n source.old source.new result) }
    ensures kept { S.means.keeps source.old source.new }
    ensures keeps { Keeps T.means host.new unit.old unit.new }
{
    if let Some(count) = promised {
        return take_promised(host, unit, map, table, count, work, source);
    }
    let have = free_room(map, table, host.geometry().segments());
    if have == 0 {
        return Err(take_none(source));
    }
    take_all(host, unit, map, table, have, work, source)
}

/// States that a name is 44 bytes, and does nothing.
pub(crate) fn is_label(name: &Name)
    ensures { IsLabel name.now }
{
    is_label_text(name.bytes());
}

fn is_label_text(text: &[u8; 44])
    ensures { IsLabel text.now }
{
    let _bytes = text.iter();
}
