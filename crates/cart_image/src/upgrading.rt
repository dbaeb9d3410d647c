//! A version 1 image brought to version 2: its sectors are copied behind its planes, and then its head turns to them.
ghost use Rattle.std.specs.Prelude.{◌≡◌, ℕ, ◌+◌, ◌*◌, ◌<◌, ◌≤◌, length, IfOk, IfSome, OnOk};
ghost use Rattle.qic_base.specs.Cause.{HasCause};
ghost use Rattle.qic_base.specs.Disk.{IsSettled};
ghost use Rattle.qic_base.specs.Field.{little_endian_bytes};
ghost use Rattle.cart_image.specs.Layout.{image_len as length_of, upgraded_len as upgraded_to, cell as cell_in, cell_with, cells_by, copy_segment as copy_segment_steps, copy_steps, upgrade_steps};
ghost use Rattle.cart_image.specs.Run.{Runs, Looked, Planned};

use crate::cells::{Cell, cell};
use crate::layout::{
    BASE_PLACE, Kind, LAYOUT_PLACE, Layout, MARK, Part, cell_place, image_len, plane_place,
    upgraded_len,
};
use crate::reading::{read_block, read_planes};
use crate::segment::SegmentMarks;
use crate::synced::{put, put_len};
use qic_base::{Disk, DiskFailed, SECTOR, TRACKS, write_u64};

/// The bytes of a segment's sectors.
type Block = [u8; 32768];

/// Reads a segment in planes: its bytes into the block. The answer is its state bytes.
fn read_segment<D: Disk>(
    disk: &mut D,
    segments_per_track: u16,
    segment: u32,
    block: &mut Block,
) -> Result<SegmentMarks, DiskFailed>
    requires { segment < 28 * segments_per_track }
    ensures looked { Looked D.means disk.old disk.new result }
    ensures cause { HasCause (D.means.faults disk.old) (D.means.faults disk.new) result }
    ensures cells { IfOk result (λ marks. IfSome (D.means.told disk.old) (λ bytes.
        length_of segments_per_track ≤ length bytes → (i : ℕ) → i < 32 →
        cell_with marks.gates marks.formed marks.defects block.new i
        ≡ cell_in segments_per_track bytes (32 * segment + i))) }
    ensures seen { D.means.seen_len disk.new ≡ D.means.seen_len disk.old }
{
    let layout = Layout {
        segments_per_track,
        kind: Kind::Planes,
    };
    let marks = read_planes(disk, layout, segment)?;
    let first = 32 * segment as u64;
    let place = plane_place(segments_per_track, Part::Data, first);
    read_block(disk, place, block)?;
    Ok(marks)
}

/// The four parts of one of its sectors, beside each other.
#[tactic(auto, unfolding(crate::specs::Layout::cell_with))]
fn cell_of(marks: &SegmentMarks, block: &Block, i: usize) -> Cell
    requires { i < 32 }
    ensures { result ≡ cell_with marks.now.gates marks.now.formed marks.now.defects block.now i }
{
    cell(
        marks.gates[i],
        marks.formed[i],
        marks.defects[i],
        &block[SECTOR * i..SECTOR * i + SECTOR],
    )
}

/// Writes the sectors of a segment, whose first one is this, as cells behind the planes.
fn write_cells<D: Disk>(
    disk: &mut D,
    segments_per_track: u16,
    first: u64,
    marks: &SegmentMarks,
    block: &Block,
) -> Result<(), DiskFailed>
    requires on { first + 32 ≤ 896 * segments_per_track }
    requires covers { upgraded_to segments_per_track ≤ D.means.seen_len disk.old }
    ensures ran { Runs D.means disk.old disk.new (cells_by segments_per_track first
        (cell_with marks.now.gates marks.now.formed marks.now.defects block.now) 32) result }
    ensures seen { D.means.seen_len disk.new ≡ D.means.seen_len disk.old }
{
    for i in 0..32 {
        let place = cell_place(
            image_len(segments_per_track),
            Part::GateByte,
            first + i as u64,
        );
        disk.write_at(place, &cell_of(marks, block, i))?;
    }
    Ok(())
}

/// Copies a segment, by way of the block.
fn copy_segment<D: Disk>(
    disk: &mut D,
    segments_per_track: u16,
    segment: u32,
    block: &mut Block,
) -> Result<(), DiskFailed>
    requires place { segment < 28 * segments_per_track }
    requires covers { upgraded_to segments_per_track ≤ D.means.seen_len disk.old }
    ensures planned { Planned D.means disk.old disk.new
        (λ bytes. copy_segment_steps segments_per_track segment bytes) result }
    ensures seen { D.means.seen_len disk.new ≡ D.means.seen_len disk.old }
{
    let marks = read_segment(disk, segments_per_track, segment, block)?;
    write_cells(disk, segments_per_track, 32 * segment as u64, &marks, block)
}

/// Copies all segments.
fn copy_all<D: Disk>(disk: &mut D, segments_per_track: u16) -> Result<(), DiskFailed>
    requires covers { upgraded_to segments_per_track ≤ D.means.seen_len disk.old }
    ensures planned { Planned D.means disk.old disk.new
        (λ bytes. copy_steps segments_per_track bytes (28 * segments_per_track)) result }
    ensures seen { D.means.seen_len disk.new ≡ D.means.seen_len disk.old }
{
    let count = TRACKS * segments_per_track as u32;
    let mut block = [0; 32768];
    for segment in 0..count {
        copy_segment(disk, segments_per_track, segment, &mut block)?;
    }
    Ok(())
}

/// Writes the base.
#[tactic(auto, unfolding(qic_base::specs::Field::overwritten, qic_base::specs::Field::little_endian_bytes))]
fn base_bytes(base: u64) -> [u8; 8]
    ensures { result ≡ little_endian_bytes 8 base }
{
    let mut bytes = [0; 8];
    write_u64(&mut bytes, 0, base);
    bytes
}

/// Brings a version 1 image to version 2. It is a whole image of version 1 until the last byte, the layout mark, is
/// written. It has its room for a segment to itself, which no other command takes then.
#[inline(never)]
#[tactic(auto, unfolding(crate::specs::Layout::upgrade_steps))]
pub fn upgrade<D: Disk>(disk: &mut D, segments_per_track: u16) -> Result<(), DiskFailed>
    requires covers { length_of segments_per_track ≤ D.means.seen_len disk.old }
    ensures planned { Planned D.means disk.old disk.new
        (λ bytes. upgrade_steps segments_per_track bytes) result }
    ensures settled { IsSettled D.means disk.new }
    ensures seen { OnOk result (D.means.seen_len disk.new ≡ upgraded_to segments_per_track) }
{
    put_len(disk, upgraded_len(segments_per_track))?;
    copy_all(disk, segments_per_track)?;
    disk.sync()?;
    put(disk, BASE_PLACE, &base_bytes(image_len(segments_per_track)))?;
    put(disk, LAYOUT_PLACE, &[MARK])
}
