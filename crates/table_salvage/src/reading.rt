//! The data of the table's segment.

ghost use Rattle.std.specs.Prelude.{◌≡◌, ◌≤◌, length, take};
ghost use Rattle.cartridge_spec.specs.Says.{whole_mask};
ghost use Rattle.cartridge_spec.specs.Shape.{data_count};
ghost use Rattle.dump_spec.specs.Given.{all_sure};
ghost use Rattle.dump_spec.specs.Table.{HasTableData, IsWholeSegment};
ghost use Rattle.dump_spec.specs.declared.form.Form.TheVariants as forms;
ghost use Rattle.segment_salvage.specs.Buffer.{buffer_cells};
ghost use Rattle.segment_salvage.specs.Reading.{given_as};

use crate::solving::solve_table;
use dump_spec::Form;
use gf256_qic::DATA_SECTORS;
use qic_base::{LostSet, Sector, WHOLE};
use segment_salvage::{SegmentReading, read_segment};
use segment_solve::Workspace;
use table_solve::data_sectors;

/// By what the segment gives, as any segment does.
fn give_table(
    form: Form,
    zero_lost: bool,
    sectors: &mut [Sector],
    usable: u32,
    unread: LostSet,
) -> bool
    requires room { length sectors.old ≡ 32 }
    requires part { ¬ (IsWholeSegment form usable) }
    ensures { HasTableData form zero_lost usable (buffer_cells form usable unread sectors.old)
        (take (data_count usable) sectors.new) result }
{
    let reading = read_segment(form, zero_lost, sectors, usable, unread);
    let count = segment_salvage::data_sectors(usable);
    first_are_sure(&reading, sectors, count)
}

/// Whether the first sectors, at most 32, are sure.
fn first_are_sure(reading: &SegmentReading, sectors: &[Sector], count: u8) -> bool
    requires within { count ≤ length sectors.now }
    requires most { count ≤ 32 }
    ensures { result ≡ all_sure (given_as reading.now 0 (take count sectors.now)) }
{
    reading.all_sure(&sectors[..count as usize])
}

/// Puts the data in front of the other sectors.
fn put_data(sectors: &mut [Sector], data_sectors: &[Sector])
    requires room { length sectors.old ≡ 32 }
    requires size { length data_sectors.now ≡ 29 }
    ensures { take 29 sectors.new ≡ data_sectors.now }
{
    sectors[..DATA_SECTORS].copy_from_slice(data_sectors);
}

/// In the form of sectors, where all are usable: as a cartridge's table is read, where that gives any data.
fn read_whole_table(
    zero_lost: bool,
    sectors: &mut [Sector],
    unread: LostSet,
    work: &mut Workspace,
) -> bool
    requires room { length sectors.old ≡ 32 }
    requires work { length work.old ≡ 32 }
    ensures area { HasTableData forms.Sectors zero_lost whole_mask
        (buffer_cells forms.Sectors whole_mask unread sectors.old) (take 29 sectors.new) result }
    ensures room { length work.new ≡ 32 }
{
    copy_into(sectors, work);
    let reading = read_segment(Form::Sectors, zero_lost, sectors, WHOLE, unread);
    let sure = first_are_sure(&reading, sectors, DATA_SECTORS as u8);
    if solve_table(reading.lost, work) {
        put_data(sectors, data_sectors(work));
    }
    sure
}

/// Copies the sectors of a segment into a workspace.
fn copy_into(sectors: &[Sector], work: &mut Workspace)
    requires room { length sectors.now ≡ 32 }
    requires work { length work.old ≡ 32 }
    ensures { work.new ≡ sectors.now }
{
    work.sectors_mut().copy_from_slice(sectors);
}

/// Makes the first of the 32 sectors of the table's segment its data, one for each usable sector but the last three, and
/// answers whether what the segment gives is sure. Bit `i` of `usable` stands for sector `i`; those in `unread` can't be read.
/// In the form of data the sectors stand at the front. What the workspace holds does not matter.
pub fn read_table(
    form: Form,
    zero_lost: bool,
    sectors: &mut [Sector],
    usable: u32,
    unread: LostSet,
    work: &mut Workspace,
) -> bool
    requires room { length sectors.old ≡ 32 }
    requires work { length work.old ≡ 32 }
    ensures area { HasTableData form zero_lost usable (buffer_cells form usable unread sectors.old)
        (take (data_count usable) sectors.new) result }
    ensures room { length work.new ≡ 32 }
{
    match form {
        Form::Sectors if usable == WHOLE => read_whole_table(zero_lost, sectors, unread, work),
        Form::Sectors | Form::Data => give_table(form, zero_lost, sectors, usable, unread),
    }
}
