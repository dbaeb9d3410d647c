//! Where the table is.

ghost use Rattle.std.specs.Prelude.{◌≡◌, ◌||◌, List, ℕ, Option, is_some};
ghost use Rattle.dump_opening.specs.Opened.{Shows};
ghost use Rattle.dump_spec.specs.Answers.{Known, header_area};
ghost use Rattle.dump_spec.specs.Table.{begins_with_volume, segment_without, table_segment};

use dump_opening::OpenDump;
use dump_spec::Form;
use qic_base::{Sector, read_u32};
use volume_table::{SIGNATURE, slot_at};

/// A table whose data stand at the front of a segment's sectors.
#[derive(Clone, Copy, Drop)]
pub struct TablePlace {
    /// The segment that it is in.
    pub segment: u16,
    /// How many sectors of data it has, 0 to 29.
    pub sectors: u8,
    /// Whether all of them are sure.
    pub sure: bool,
}

/// The table of a dump without a header is in segment 2, and in the form of data in that of the first piece.
fn segment_without(form: Form, first: u16) -> u16
    ensures { result ≡ segment_without form first }
{
    match form {
        Form::Sectors => 2,
        Form::Data => first,
    }
}

/// The segment that a dump's table is in.
pub(crate) fn table_segment(dump: &OpenDump) -> u16
    ensures { (told : Option (List ℕ)) (known : Known) → Shows dump.now told known →
        result ≡ table_segment (header_area known) known.layout }
{
    match &dump.header {
        Some(header) => header.fields.first_data,
        None => segment_without(dump.known.form, dump.known.first),
    }
}

/// Whether data of at most 29 sectors begin with the slot of a volume.
fn begins_with_volume(area: &[Sector]) -> bool
    ensures { result ≡ begins_with_volume area.now }
{
    !area.is_empty() && read_u32(slot_at(area, 0), 0) == SIGNATURE
}

/// Whether the data of the table's segment are a table: without a header they are one where they begin with a volume's slot.
pub(crate) fn is_table(dump: &OpenDump, area: &[Sector]) -> bool
    ensures { result ≡ (is_some dump.now.header || begins_with_volume area.now) }
{
    dump.header.is_some() || begins_with_volume(area)
}
