//! What a cartridge's table would be read as, from the sectors of a whole segment.

ghost use Rattle.std.specs.Prelude.{◌≡◌, ◌≤◌, List, length};
ghost use Rattle.qic_base.specs.declared.tape.SectorView.{SectorView};
ghost use Rattle.cartridge_laws.specs.Says.{LosesData};
ghost use Rattle.qic_base.specs.Cartridge.{lost_places};
ghost use Rattle.segment_solve.specs.Gathered.{Gathered};
ghost use Rattle.table_salvage.specs.TapeTable.{FindsTapeTable};

use qic_base::LostSet;
use segment_solve::Workspace;
use table_solve::{data_sectors, solve_first};
use volume_table::{Table, TableReading, last_used, trials};

/// Makes the first 29 sectors the table's data by the code, where one to three sectors are lost, one of them of data, and
/// answers whether it has any.
fn solve_lost(lost: LostSet, work: &mut Workspace) -> bool
    requires room { length work.old ≡ 32 }
    requires few { length (lost_places lost 32) ≤ 3 }
    requires loses_data { LosesData lost }
    ensures found { (cells : List SectorView) → length cells ≡ 32 → Gathered cells lost work.old →
        FindsTapeTable result cells work.new }
    ensures room { length work.new ≡ 32 }
{
    let used = last_used(data_sectors(work), lost);
    match solve_first(&trials(lost, used), work) {
        Some(_) => true,
        None => false,
    }
}

/// Makes the first 29 sectors the data that a cartridge's table of these sectors is read as, where it is read as any; those
/// at the lost places can't be read.
pub(crate) fn solve_table(lost: LostSet, work: &mut Workspace) -> bool
    requires room { length work.old ≡ 32 }
    ensures found { (cells : List SectorView) → length cells ≡ 32 → Gathered cells lost work.old →
        FindsTapeTable result cells work.new }
    ensures room { length work.new ≡ 32 }
{
    match Table::reading(lost) {
        TableReading::AsRead => true,
        TableReading::Solve => solve_lost(lost, work),
        TableReading::TooMany { .. } => false,
    }
}
