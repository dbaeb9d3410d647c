//! The finding of the table.

ghost use Rattle.std.specs.Prelude.{◌≡◌, ◌≤◌, ◌<◌, Option, IfOk, IfSome, length};
ghost use Rattle.dump_opening.specs.Opened.{Shows};
ghost use Rattle.dump_reader.specs.Laid.{HasSegment};
ghost use Rattle.dump_spec.specs.Answers.{Known, TableIs};
ghost use Rattle.dump_tables.specs.Found.{HasData, table_in};
ghost use Rattle.qic_base.specs.Disk.{Look, Stores};

use crate::place::{TablePlace, is_table, table_segment};
use dump_opening::OpenDump;
use dump_reader::{Cursor, read_piece};
use qic_base::{Disk, DiskFailed, Sector};
use segment_salvage::data_sectors;
use segment_solve::Workspace;
use table_salvage::read_table;

/// Reads a segment, and makes its sectors the data of a table.
fn read_at<D: Disk>(
    disk: &mut D,
    dump: &OpenDump,
    segment: u16,
    sectors: &mut [Sector],
    work: &mut Workspace,
) -> Result<TablePlace, DiskFailed>
    requires room { length sectors.old ≡ 32 }
    requires work { length work.old ≡ 32 }
    requires there { HasSegment dump.now.known segment }
    ensures did { Stores D.means disk.old disk.new Look result }
    ensures data { IfOk result (λ place. (known : Known) → Shows dump.now (D.means.told disk.old) known →
        HasData known segment sectors.new place) }
    ensures segment { IfOk result (λ place. place.segment ≡ segment) }
    ensures few { IfOk result (λ place. place.sectors ≤ 29) }
    ensures room { length sectors.new ≡ 32 }
    ensures work { length work.new ≡ 32 }
{
    let mut cursor = Cursor::new();
    let unread = read_piece(disk, &dump.known, &mut cursor, segment, sectors)?;
    let usable = dump.known.masks[segment as usize];
    let sure = read_table(
        dump.known.form,
        dump.zero_lost,
        sectors,
        usable,
        unread,
        work,
    );
    Ok(TablePlace {
        segment,
        sectors: data_sectors(usable),
        sure,
    })
}

/// Finds the volume table of a dump, and makes the first sectors its data. Without a header there is one only where the data
/// begin with a volume's slot. The sectors and the workspace are room for a segment each, whatever they hold.
pub fn find_table<D: Disk>(
    disk: &mut D,
    dump: &OpenDump,
    sectors: &mut [Sector],
    work: &mut Workspace,
) -> Result<Option<TablePlace>, DiskFailed>
    requires room { length sectors.old ≡ 32 }
    requires work { length work.old ≡ 32 }
    requires masks { length dump.now.known.masks.now ≡ 65536 }
    requires missing { length dump.now.known.missing.now ≡ 2048 }
    ensures did { Stores D.means disk.old disk.new Look result }
    ensures table { IfOk result (λ found. (known : Known) → Shows dump.now (D.means.told disk.old) known →
        TableIs known (table_in sectors.new found)) }
    ensures few { IfOk result (λ found. IfSome found (λ place. place.sectors ≤ 29)) }
    ensures room { length sectors.new ≡ 32 }
    ensures work { length work.new ≡ 32 }
{
    let place = read_at(disk, dump, table_segment(dump), sectors, work)?;
    if is_table(dump, &sectors[..place.sectors as usize]) {
        Ok(Some(place))
    } else {
        Ok(None)
    }
}
