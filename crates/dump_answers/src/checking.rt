//! The segments of a dump, checked.

ghost use Rattle.std.specs.Prelude.{◌≡◌, ◌≤◌, ◌+◌, ◌∷◌, [], nat_le, IfOk, length};
ghost use Rattle.cartridge_spec.specs.Shape.{usable_count};
ghost use Rattle.dump_answers.specs.Checking.{Checks, HasFew, LooksAt, Steps, input_of};
ghost use Rattle.dump_answers.specs.Ends.{CountsByFault};
ghost use Rattle.dump_opening.specs.Opened.{Shows};
ghost use Rattle.dump_reader.specs.Laid.{HasSegment, IsPlaced};
ghost use Rattle.dump_spec.specs.Answers.{Known};
ghost use Rattle.qic_base.specs.Disk.{Look, Stores};

use dump_lists::SEGMENTS;
use dump_opening::OpenDump;
use dump_output::PutFault;
use dump_reader::{Cursor, read_piece};
use dump_spec::Status;
use dump_volumes::{CheckCounts, write_check, write_finding};
use qic_base::{Disk, DiskFailed, LostSet, Sector, Sink, SinkFailed};
use segment_salvage::{Finding, check_segment};

/// A segment with fewer usable sectors carries nothing.
const LEAST_SECTORS: u8 = 4;

/// Whether a segment with this mask carries data.
fn carries(mask: u32) -> bool
    ensures { result ≡ nat_le 4 (usable_count mask) }
{
    LostSet::from_mask(mask).count() >= LEAST_SECTORS
}

/// What a check finds of a segment; none where it has no piece, or carries nothing.
fn look_at<D: Disk>(
    disk: &mut D,
    dump: &OpenDump,
    cursor: &mut Cursor,
    segment: u16,
    sectors: &mut [Sector],
) -> Result<Option<Finding>, DiskFailed>
    requires room { length sectors.old ≡ 32 }
    requires there { HasSegment dump.now.known segment }
    requires placed { IsPlaced dump.now.known cursor.old }
    ensures did { Stores D.means disk.old disk.new Look result }
    ensures found { IfOk result (λ found. (known : Known) → Shows dump.now (D.means.told disk.old) known →
        LooksAt known segment found) }
    ensures placed { IsPlaced dump.now.known cursor.new }
    ensures room { length sectors.new ≡ 32 }
{
    cursor.go_to(&dump.known, segment);
    let usable = dump.known.masks[segment as usize];
    if !cursor.has_piece(&dump.known) || !carries(usable) {
        return Ok(None);
    }
    let unread = read_piece(disk, &dump.known, cursor, segment, sectors)?;
    Ok(Some(check_segment(dump.known.form, dump.zero_lost, sectors, usable, unread)))
}

/// Checks a segment, where it is to be looked at, and writes what is found of it.
fn check_next<D: Disk, K: Sink>(
    disk: &mut D,
    dump: &OpenDump,
    cursor: &mut Cursor,
    segment: u16,
    sectors: &mut [Sector],
    counts: &mut CheckCounts,
    output: &mut K,
) -> Result<(), PutFault>
    requires room { length sectors.old ≡ 32 }
    requires there { HasSegment dump.now.known segment }
    requires placed { IsPlaced dump.now.known cursor.old }
    requires few { HasFew counts.old segment }
    ensures steps { (known : Known) → Shows dump.now (D.means.told disk.old) known →
        Steps K.means known segment counts.old counts.new output.old output.new result }
    ensures did { Stores D.means disk.old disk.new Look (input_of result) }
    ensures counts { CountsByFault (D.means.faults disk.old ∷ []) (D.means.faults disk.new ∷ [])
        (K.means.faults output.old ∷ []) (K.means.faults output.new ∷ []) result }
    ensures few { HasFew counts.new (segment + 1) }
    ensures placed { IsPlaced dump.now.known cursor.new }
    ensures room { length sectors.new ≡ 32 }
{
    match look_at(disk, dump, cursor, segment, sectors) {
        Ok(Some(finding)) => {
            counts.count(finding);
            match write_finding(segment, finding, output) {
                Ok(()) => Ok(()),
                Err(SinkFailed) => Err(PutFault::Output),
            }
        }
        Ok(None) => Ok(()),
        Err(DiskFailed) => Err(PutFault::Input),
    }
}

/// Checks each segment that has a piece and carries data, and writes what is found of it; last how many there were. Each is read
/// and told of before the next.
pub(crate) fn check_dump<D: Disk, K: Sink>(
    disk: &mut D,
    dump: &OpenDump,
    sectors: &mut [Sector],
    output: &mut K,
) -> Result<Status, PutFault>
    requires room { length sectors.old ≡ 32 }
    requires masks { length dump.now.known.masks.now ≡ 65536 }
    requires missing { length dump.now.known.missing.now ≡ 2048 }
    ensures checks { (known : Known) → Shows dump.now (D.means.told disk.old) known →
        Checks K.means known output.old output.new result }
    ensures counts { CountsByFault (D.means.faults disk.old ∷ []) (D.means.faults disk.new ∷ [])
        (K.means.faults output.old ∷ []) (K.means.faults output.new ∷ []) result }
{
    let mut counts = CheckCounts::new();
    let mut cursor = Cursor::new();
    for index in 0..SEGMENTS {
        let segment = index as u16;
        check_next(
            disk,
            dump,
            &mut cursor,
            segment,
            sectors,
            &mut counts,
            output,
        )?;
    }
    match write_check(counts, output) {
        Ok(()) => Ok(counts.status()),
        Err(SinkFailed) => Err(PutFault::Output),
    }
}
