//! What is printed of a dump, and of its volumes.

ghost use Rattle.std.specs.Prelude.{◌≡◌, ◌≤◌, List, ℕ, Option, Some, IfOk, length};
ghost use Rattle.qic_base.specs.Cause.{HasCause};
ghost use Rattle.qic_base.specs.SinkCalls.{Writes};
ghost use Rattle.dump_answers.specs.Tables.{FitsIn};
ghost use Rattle.dump_opening.specs.Headers.{HasTold};
ghost use Rattle.dump_opening.specs.Opened.{Shows};
ghost use Rattle.dump_spec.specs.Answers.{Known, counts_segments, info_answer, list_answer, volume_count, warns};
ghost use Rattle.dump_tables.specs.Found.{table_in};

use crate::pieces::count_pieces;
use dump_opening::OpenDump;
use dump_spec::Status;
use dump_tables::TablePlace;
use dump_volumes::{count_volumes, write_info, write_list};
use qic_base::{Sector, Sink, SinkFailed};

/// The format code whose slots count the segments of volumes.
const COUNTING: u8 = 6;

/// Whether the slots of a dump's table count the segments of volumes.
pub(crate) fn counts_segments(dump: &OpenDump) -> bool
    ensures { (told : Option (List ℕ)) (known : Known) → Shows dump.now told known → result ≡ counts_segments known }
{
    match &dump.header {
        Some(header) => header.fields.format_code == COUNTING,
        None => false,
    }
}

/// Whether a table is not sure.
pub(crate) fn is_unsure(table: Option<TablePlace>) -> bool
    ensures { (sectors : List (List ℕ)) → result ≡ warns (table_in sectors table) }
{
    match table {
        Some(place) => !place.sure,
        None => false,
    }
}

/// How many volumes there are; none without a table.
fn volume_count(table: Option<TablePlace>, sectors: &[Sector]) -> u32
    requires { FitsIn sectors.now table }
    ensures { (known : Known) → result ≡ volume_count known (table_in sectors.now table) }
{
    match table {
        Some(place) => u32::from(count_volumes(&sectors[..place.sectors as usize])),
        None => 0,
    }
}

/// Writes what a dump and its header are.
pub(crate) fn tell_info<K: Sink>(
    dump: &OpenDump,
    table: Option<TablePlace>,
    sectors: &[Sector],
    output: &mut K,
) -> Result<Status, SinkFailed>
    requires masks { length dump.now.known.masks.now ≡ 65536 }
    requires missing { length dump.now.known.missing.now ≡ 2048 }
    requires few { FitsIn sectors.now table }
    requires header { HasTold dump.now.header }
    ensures written { (told : Option (List ℕ)) (known : Known) → Shows dump.now told known →
        Writes K.means output.old output.new (info_answer known (table_in sectors.now table)).printed result }
    ensures cause { HasCause (K.means.faults output.old) (K.means.faults output.new) result }
    ensures status { IfOk result (λ status. (known : Known) →
        status ≡ (info_answer known (table_in sectors.now table)).status) }
{
    let counts = count_pieces(&dump.known);
    let volumes = volume_count(table, sectors);
    match write_info(
        dump.known.form,
        dump.known.bytes,
        counts.pieces,
        dump.header,
        counts.bad,
        volumes,
        output,
    ) {
        Ok(()) => Ok(Status::Done),
        Err(fault) => Err(fault),
    }
}

/// Writes the volumes of a table.
fn tell_volumes<K: Sink>(
    dump: &OpenDump,
    place: TablePlace,
    sectors: &[Sector],
    output: &mut K,
) -> Result<Status, SinkFailed>
    requires masks { length dump.now.known.masks.now ≡ 65536 }
    requires few { FitsIn sectors.now (Some place) }
    ensures written { (told : Option (List ℕ)) (known : Known) → Shows dump.now told known →
        Writes K.means output.old output.new (list_answer known (table_in sectors.now (Some place))).printed result }
    ensures cause { HasCause (K.means.faults output.old) (K.means.faults output.new) result }
    ensures status { IfOk result (λ status. status ≡ Status.Done) }
{
    match write_list(
        dump.known.masks,
        counts_segments(dump),
        place.segment,
        &sectors[..place.sectors as usize],
        output,
    ) {
        Ok(()) => Ok(Status::Done),
        Err(fault) => Err(fault),
    }
}

/// Writes the volumes of a table, if there is one.
pub(crate) fn tell_list<K: Sink>(
    dump: &OpenDump,
    table: Option<TablePlace>,
    sectors: &[Sector],
    output: &mut K,
) -> Result<Status, SinkFailed>
    requires masks { length dump.now.known.masks.now ≡ 65536 }
    requires few { FitsIn sectors.now table }
    ensures written { (told : Option (List ℕ)) (known : Known) → Shows dump.now told known →
        Writes K.means output.old output.new (list_answer known (table_in sectors.now table)).printed result }
    ensures cause { HasCause (K.means.faults output.old) (K.means.faults output.new) result }
    ensures status { IfOk result (λ status. (known : Known) →
        status ≡ (list_answer known (table_in sectors.now table)).status) }
{
    match table {
        Some(place) => tell_volumes(dump, place, sectors, output),
        None => Ok(Status::NoHeader),
    }
}
