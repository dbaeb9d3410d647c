//! A segment of an image file formatted.
ghost use Rattle.std.specs.Prelude.{◌≡◌, ℕ, ◌*◌, ◌<◌, ◌≤◌, ◌==◌, ◌&&◌, not, false, slice_index, slice_index_or};
ghost use Rattle.qic_base.specs.Disk.{IsSettled};
ghost use Rattle.cart_image.specs.Layout.{end_of, open_gate, formed_byte, defect_byte, format_segment_steps, format_plan};
ghost use Rattle.cart_image.specs.Run.{Runs, Carried};

use crate::filling::fill;
use crate::layout::{CLOSED, DEFECT, FORMED, Layout, OPEN, Part};
use crate::reading::read_marks;
use crate::segment::SegmentMarks;
use qic_base::{Disk, DiskFailed};

/// Which sectors of a segment have their gates closed, are zeroed, and are formed.
#[derive(Clone, Copy)]
struct Chosen {
    readable: [bool; 32],
    usable: [bool; 32],
    unformed: [bool; 32],
}

/// Whether a sector with this defect byte is no defect.
fn is_usable(defect: u8) -> bool
    ensures { result ≡ not (defect == defect_byte) }
{
    defect != DEFECT
}

/// Whether it is none, and its gate is open.
fn is_readable(defect: u8, gate: u8) -> bool
    ensures { result ≡ (not (defect == defect_byte) && (gate == open_gate)) }
{
    is_usable(defect) && gate == OPEN
}

/// Whether it is none, and was never formatted.
fn is_unformed(defect: u8, formed: u8) -> bool
    ensures { result ≡ (not (defect == defect_byte) && not (formed == formed_byte)) }
{
    is_usable(defect) && formed != FORMED
}

/// Chooses them, by the state bytes; a defect is never chosen.
fn choose(marks: &SegmentMarks) -> Chosen
    ensures usable { (i : ℕ) → i < 32 → slice_index_or result.usable i false
        ≡ not (slice_index marks.now.defects i == defect_byte) }
    ensures readable { (i : ℕ) → i < 32 → slice_index_or result.readable i false
        ≡ (not (slice_index marks.now.defects i == defect_byte)
        && (slice_index marks.now.gates i == open_gate)) }
    ensures unformed { (i : ℕ) → i < 32 → slice_index_or result.unformed i false
        ≡ (not (slice_index marks.now.defects i == defect_byte)
        && not (slice_index marks.now.formed i == formed_byte)) }
{
    let mut readable = [false; 32];
    let mut usable = [false; 32];
    let mut unformed = [false; 32];
    for i in 0..32 {
        usable[i] = is_usable(marks.defects[i]);
        readable[i] = is_readable(marks.defects[i], marks.gates[i]);
        unformed[i] = is_unformed(marks.defects[i], marks.formed[i]);
    }
    Chosen {
        readable,
        usable,
        unformed,
    }
}

/// Formats a segment of which these sectors are chosen.
#[tactic(auto, unfolding(crate::specs::Layout::format_segment_steps, crate::specs::Layout::even))]
fn write_formatted<D: Disk>(
    disk: &mut D,
    layout: Layout,
    segment: u32,
    chosen: &Chosen,
) -> Result<(), DiskFailed>
    requires place { segment < 28 * layout.segments_per_track }
    requires covers { end_of layout ≤ D.means.seen_len disk.old }
    requires settled { IsSettled D.means disk.old }
    ensures ran { Runs D.means disk.old disk.new (format_segment_steps layout segment
        chosen.now.readable chosen.now.usable chosen.now.unformed) result }
    ensures settled { IsSettled D.means disk.new }
    ensures seen { D.means.seen_len disk.new ≡ D.means.seen_len disk.old }
{
    let first = 32 * segment as u64;
    fill(
        disk,
        layout,
        Part::GateByte,
        &[CLOSED; 32],
        first,
        &chosen.readable,
    )?;
    fill(disk, layout, Part::Data, &[0; 32768], first, &chosen.usable)?;
    fill(
        disk,
        layout,
        Part::FormedByte,
        &[FORMED; 32],
        first,
        &chosen.unformed,
    )?;
    fill(
        disk,
        layout,
        Part::GateByte,
        &[OPEN; 32],
        first,
        &chosen.usable,
    )
}

/// Formats a segment.
pub fn format_segment<D: Disk>(disk: &mut D, layout: Layout, segment: u32) -> Result<(), DiskFailed>
    requires place { segment < 28 * layout.segments_per_track }
    requires covers { end_of layout ≤ D.means.seen_len disk.old }
    requires settled { IsSettled D.means disk.old }
    ensures carried { Carried D.means disk.old disk.new
        (λ bytes. format_plan layout segment bytes) result }
    ensures settled { IsSettled D.means disk.new }
    ensures seen { D.means.seen_len disk.new ≡ D.means.seen_len disk.old }
{
    let marks = read_marks(disk, layout, segment)?;
    write_formatted(disk, layout, segment, &choose(&marks))
}
