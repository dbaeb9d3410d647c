//! The bytes of a volume, and of segments.

ghost use Rattle.std.specs.Prelude.{◌≡◌, ◌≤◌, ◌<◌, ◌^◌, ◌∷◌, [], Bool, ℕ, Some, false, if◌then◌else◌, length};
ghost use Rattle.dump_answers.specs.Ends.{CountsByFault, StatusEnds};
ghost use Rattle.dump_answers.specs.Tables.{FitsIn, IsPlace};
ghost use Rattle.dump_opening.specs.Opened.{Shows};
ghost use Rattle.dump_spec.specs.Answers.{Known, AnswersVolume, GivesVolume, PutsOut};
ghost use Rattle.dump_spec.specs.Table.{FoundTable};
ghost use Rattle.dump_spec.specs.Volumes.{carried, carried_between, has_bad_range, length_of};
ghost use Rattle.dump_tables.specs.Found.{table_in};
ghost use Rattle.dump_volumes.specs.Masks.{HoldMasks};
ghost use Rattle.dump_volumes.specs.Volume.{volume_of};

use crate::telling::counts_segments;
use dump_opening::OpenDump;
use dump_output::{PutFault, put_out};
use dump_spec::Status;
use dump_tables::TablePlace;
use dump_volumes::{Volume, carried_between, count_volumes, has_bad_range, length_of, numbered};
use qic_base::{Disk, Sector, Sink};

/// Writes the first bytes, so many, of what segments give, and their map.
fn put_bytes<D: Disk, K: Sink, M: Sink>(
    disk: &mut D,
    dump: &OpenDump,
    first: u16,
    last: u16,
    size: u64,
    sectors: &mut [Sector],
    output: &mut K,
    sure: &mut M,
) -> Result<Status, PutFault>
    requires room { length sectors.old ≡ 32 }
    requires masks { length dump.now.known.masks.now ≡ 65536 }
    requires missing { length dump.now.known.missing.now ≡ 2048 }
    requires small { size < 2 ^ 32 }
    ensures puts { (known : Known) (warned : Bool) → Shows dump.now (D.means.told disk.old) known →
        StatusEnds K.means M.means (PutsOut known warned first last size)
        record { output = output.old; sure = sure.old } record { output = output.new; sure = sure.new } result }
    ensures counts { CountsByFault (D.means.faults disk.old ∷ []) (D.means.faults disk.new ∷ [])
        (K.means.faults output.old ∷ M.means.faults sure.old ∷ [])
        (K.means.faults output.new ∷ M.means.faults sure.new ∷ []) result }
{
    put_out(
        disk,
        &dump.known,
        dump.zero_lost,
        first,
        last,
        size,
        sectors,
        output,
        sure,
    )
}

/// Writes what the segments from one to another carry.
pub(crate) fn put_segments<D: Disk, K: Sink, M: Sink>(
    disk: &mut D,
    dump: &OpenDump,
    first: u16,
    last: u16,
    sectors: &mut [Sector],
    output: &mut K,
    sure: &mut M,
) -> Result<Status, PutFault>
    requires room { length sectors.old ≡ 32 }
    requires masks { length dump.now.known.masks.now ≡ 65536 }
    requires missing { length dump.now.known.missing.now ≡ 2048 }
    ensures puts { (known : Known) → Shows dump.now (D.means.told disk.old) known →
        StatusEnds K.means M.means (PutsOut known false first last (carried_between known.layout.masks first last))
        record { output = output.old; sure = sure.old } record { output = output.new; sure = sure.new } result }
    ensures counts { CountsByFault (D.means.faults disk.old ∷ []) (D.means.faults disk.new ∷ [])
        (K.means.faults output.old ∷ M.means.faults sure.old ∷ [])
        (K.means.faults output.new ∷ M.means.faults sure.new ∷ []) result }
{
    let size = carried_between(dump.known.masks, first, last);
    put_bytes(disk, dump, first, last, size, sectors, output, sure)
}

/// How many bytes are asked for of a volume: its length, or all that its segments carry.
fn asked_size(masks: &[u32], table: u16, volume: &Volume, whole: bool) -> u64
    requires masks { length masks.now ≡ 65536 }
    requires range { has_bad_range table (volume_of volume.now) ≡ false }
    ensures bytes { (of : ℕ → ℕ) → HoldMasks masks.now of →
        result ≡ (if whole then carried of (volume_of volume.now) else length_of of table (volume_of volume.now)) }
    ensures small { result < 2 ^ 31 }
{
    if whole {
        carried_between(masks, volume.start as u16, volume.end as u16)
    } else {
        length_of(masks, table, volume)
    }
}

/// The volume that is asked for.
#[derive(Clone, Copy, Drop)]
pub(crate) struct AskedVolume {
    /// Counted from 1.
    pub number: u32,
    /// Whether all that its segments carry is asked for.
    pub whole: bool,
}

/// Writes a volume of a table in this segment; one whose range is bad is refused.
fn put_found<D: Disk, K: Sink, M: Sink>(
    disk: &mut D,
    dump: &OpenDump,
    table: TablePlace,
    asked: AskedVolume,
    volume: &Volume,
    sectors: &mut [Sector],
    output: &mut K,
    sure: &mut M,
) -> Result<Status, PutFault>
    requires room { length sectors.old ≡ 32 }
    requires masks { length dump.now.known.masks.now ≡ 65536 }
    requires missing { length dump.now.known.missing.now ≡ 2048 }
    ensures puts { (known : Known) (found : FoundTable) → Shows dump.now (D.means.told disk.old) known →
        IsPlace table found →
        StatusEnds K.means M.means (GivesVolume known found asked.number asked.whole (Some (volume_of volume.now)))
        record { output = output.old; sure = sure.old } record { output = output.new; sure = sure.new } result }
    ensures counts { CountsByFault (D.means.faults disk.old ∷ []) (D.means.faults disk.new ∷ [])
        (K.means.faults output.old ∷ M.means.faults sure.old ∷ [])
        (K.means.faults output.new ∷ M.means.faults sure.new ∷ []) result }
{
    if has_bad_range(table.segment, volume) {
        return Ok(Status::BadRange {
            number: asked.number,
        });
    }
    let size = asked_size(dump.known.masks, table.segment, volume, asked.whole);
    let first = volume.start as u16;
    let last = volume.end as u16;
    put_bytes(disk, dump, first, last, size, sectors, output, sure)
}

/// Writes the volume of a table with a number; there may be none.
fn put_numbered<D: Disk, K: Sink, M: Sink>(
    disk: &mut D,
    dump: &OpenDump,
    table: TablePlace,
    asked: AskedVolume,
    sectors: &mut [Sector],
    output: &mut K,
    sure: &mut M,
) -> Result<Status, PutFault>
    requires room { length sectors.old ≡ 32 }
    requires masks { length dump.now.known.masks.now ≡ 65536 }
    requires missing { length dump.now.known.missing.now ≡ 2048 }
    requires few { FitsIn sectors.old (Some table) }
    ensures puts { (known : Known) → Shows dump.now (D.means.told disk.old) known →
        StatusEnds K.means M.means (AnswersVolume known asked.number asked.whole (table_in sectors.old (Some table)))
        record { output = output.old; sure = sure.old } record { output = output.new; sure = sure.new } result }
    ensures counts { CountsByFault (D.means.faults disk.old ∷ []) (D.means.faults disk.new ∷ [])
        (K.means.faults output.old ∷ M.means.faults sure.old ∷ [])
        (K.means.faults output.new ∷ M.means.faults sure.new ∷ []) result }
{
    let area = &sectors[..table.sectors as usize];
    let found = numbered(counts_segments(dump), table.segment, area, asked.number);
    match found {
        Some(volume) => put_found(disk, dump, table, asked, &volume, sectors, output, sure),
        None => Ok(Status::NoVolume {
            number: asked.number,
            count: u32::from(count_volumes(&sectors[..table.sectors as usize])),
        }),
    }
}

/// Writes the volume with a number, where there is a table.
pub(crate) fn put_volume<D: Disk, K: Sink, M: Sink>(
    disk: &mut D,
    dump: &OpenDump,
    table: Option<TablePlace>,
    asked: AskedVolume,
    sectors: &mut [Sector],
    output: &mut K,
    sure: &mut M,
) -> Result<Status, PutFault>
    requires room { length sectors.old ≡ 32 }
    requires masks { length dump.now.known.masks.now ≡ 65536 }
    requires missing { length dump.now.known.missing.now ≡ 2048 }
    requires few { FitsIn sectors.old table }
    ensures puts { (known : Known) → Shows dump.now (D.means.told disk.old) known →
        StatusEnds K.means M.means (AnswersVolume known asked.number asked.whole (table_in sectors.old table))
        record { output = output.old; sure = sure.old } record { output = output.new; sure = sure.new } result }
    ensures counts { CountsByFault (D.means.faults disk.old ∷ []) (D.means.faults disk.new ∷ [])
        (K.means.faults output.old ∷ M.means.faults sure.old ∷ [])
        (K.means.faults output.new ∷ M.means.faults sure.new ∷ []) result }
{
    match table {
        Some(place) => put_numbered(disk, dump, place, asked, sectors, output, sure),
        None => Ok(Status::NoHeader),
    }
}
