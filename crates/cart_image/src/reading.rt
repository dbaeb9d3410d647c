//! What an image file tells: its head, and what it holds of its sectors.
ghost use Rattle.std.specs.Prelude.{◌≡◌, ℕ, ◌+◌, ◌*◌, ◌<◌, ◌≤◌, List, length, slice_index, slice_index_or, slice_range, IfOk, IfSome, OnErr, OnOk, true, false};
ghost use Rattle.qic_base.specs.Cause.{HasCause};
ghost use Rattle.qic_base.specs.Disk.{IsSettled};
ghost use Rattle.cart_image.specs.Image.{base_kind, kind_by, layout_by, head_by as head_told, head_of, view_by, view_in, sector_bytes};
ghost use Rattle.cart_image.specs.Layout.{cell_len, sectors, end_of, touches};
ghost use Rattle.cart_image.specs.Run.{Looks, Looked};
ghost use Rattle.cart_image.specs.State.{state_of, AreMarks};
ghost use Rattle.cart_image.specs.Whole.{IsHeadIn};

use crate::cells::Cells;
use crate::layout::{
    CELL_LEN, CELLS_LEN, DEFECT, FORMED, HEAD_LEN, Head, Kind, Layout, MARK, OPEN, Part, SIGNATURE,
    image_len,
};
use crate::segment::SegmentMarks;
use qic_base::{Disk, DiskFailed, LONGEST, SECTOR, Sector, read_u16, read_u64};

/// The fewest segments per track of a cartridge.
const SHORTEST: u16 = 3;

/// What the state bytes say of a sector.
#[derive(Clone, Copy)]
pub enum SectorState {
    Blank,
    Defect,
    Lost,
    Readable,
}

/// How the parts lie in a version 2 image with this base.
fn cells_at(segments_per_track: u16, base: u64) -> Option<Kind>
    ensures { result ≡ base_kind segments_per_track base }
{
    if base == HEAD_LEN {
        Some(Kind::Cells)
    } else if base == image_len(segments_per_track) {
        Some(Kind::CellsBehind)
    } else {
        None
    }
}

/// How they lie in an image with this head.
fn kind_of(segments_per_track: u16, head: &[u8; 24]) -> Option<Kind>
    ensures { result ≡ kind_by segments_per_track head.now }
{
    if head[14] == MARK {
        cells_at(segments_per_track, read_u64(head, 16))
    } else if read_u16(head, 8) == 1 {
        Some(Kind::Planes)
    } else {
        None
    }
}

/// The layout of a file of this length that begins so; None where it is no image.
#[tactic(auto, unfolding(crate::specs::Image::layout_by))]
fn layout_by_head(len: u64, head: &[u8; 24]) -> Option<Layout>
    ensures { result ≡ layout_by len head.now }
{
    let segments_per_track = read_u16(head, 10);
    if head[..8] != SIGNATURE[..] {
        return None;
    }
    if segments_per_track < SHORTEST || segments_per_track > LONGEST {
        return None;
    }
    match kind_of(segments_per_track, head) {
        None => None,
        Some(kind) => {
            let layout = Layout {
                segments_per_track,
                kind,
            };
            if layout.end() <= len {
                Some(layout)
            } else {
                None
            }
        }
    }
}

/// What a file of this length that begins so tells; None where it is no image.
fn head_by(len: u64, head: &[u8; 24]) -> Option<Head>
    ensures { result ≡ head_told len head.now }
{
    match layout_by_head(len, head) {
        None => None,
        Some(layout) => Some(Head {
            layout,
            protected: head[12] == MARK,
            referenced: head[13] == MARK,
        }),
    }
}

/// What the head of the file tells; None where it is no image.
pub fn read_head<D: Disk>(disk: &mut D) -> Result<Option<Head>, DiskFailed>
    ensures looked { Looked D.means disk.old disk.new result }
    ensures stood { OnOk result (D.means.faults disk.new ≡ D.means.faults disk.old) }
    ensures head { IfOk result (λ head.
        IfSome (D.means.told disk.old) (λ bytes. head ≡ head_of bytes)) }
    ensures fits { IfOk result (λ head. IfSome head (λ h.
        IsHeadIn (D.means.seen_len disk.new) h)) }
    ensures failed { OnErr result (D.means.seen_len disk.new ≡ D.means.seen_len disk.old) }
{
    let mut head = [0; 24];
    let count = disk.read_at(0, &mut head)?;
    let len = disk.len()?;
    Ok(if count == head.len() {
        head_by(len, &head)
    } else {
        None
    })
}

/// The byte at a place; 0 behind the end.
pub fn read_byte<D: Disk>(disk: &mut D, place: u64) -> Result<u8, DiskFailed>
    ensures looked { Looked D.means disk.old disk.new result }
    ensures byte { IfOk result (λ byte.
        IfSome (D.means.told disk.old) (λ bytes. byte ≡ slice_index bytes place)) }
    ensures seen { D.means.seen_len disk.new ≡ D.means.seen_len disk.old }
{
    let mut byte = [0];
    let count = disk.read_at(place, &mut byte)?;
    Ok(if count == 1 { byte[0] } else { 0 })
}

/// What these state bytes say of a sector.
fn state_by(defect: u8, formed: u8, gate: u8) -> SectorState
    ensures { (bytes : List ℕ) → result ≡ state_of (view_by defect formed gate bytes) }
{
    if defect == DEFECT {
        SectorState::Defect
    } else if formed != FORMED {
        SectorState::Blank
    } else if gate == OPEN {
        SectorState::Readable
    } else {
        SectorState::Lost
    }
}

/// 32 bytes of a plane.
fn read_plane<D: Disk>(disk: &mut D, place: u64) -> Result<[u8; 32], DiskFailed>
    ensures looked { Looked D.means disk.old disk.new result }
    ensures cause { HasCause (D.means.faults disk.old) (D.means.faults disk.new) result }
    ensures bytes { IfOk result (λ part. IfSome (D.means.told disk.old) (λ bytes.
        place + 32 ≤ length bytes → part ≡ slice_range bytes place (place + 32))) }
    ensures seen { D.means.seen_len disk.new ≡ D.means.seen_len disk.old }
{
    let mut part = [0; 32];
    disk.read_at(place, &mut part)?;
    Ok(part)
}

/// Reads the bytes of a segment's sectors, where they stand beside each other.
pub fn read_block<D: Disk>(
    disk: &mut D,
    place: u64,
    into: &mut [u8; 32768],
) -> Result<(), DiskFailed>
    ensures looked { Looked D.means disk.old disk.new result }
    ensures cause { HasCause (D.means.faults disk.old) (D.means.faults disk.new) result }
    ensures bytes { IfOk result (λ done. IfSome (D.means.told disk.old) (λ bytes.
        place + 32768 ≤ length bytes → into.new ≡ slice_range bytes place (place + 32768))) }
    ensures seen { D.means.seen_len disk.new ≡ D.means.seen_len disk.old }
{
    disk.read_at(place, into)?;
    Ok(())
}

/// The three state bytes of a sector that stand beside each other: its gate, its formed byte and its defect byte.
fn read_flags<D: Disk>(disk: &mut D, place: u64) -> Result<[u8; 3], DiskFailed>
    ensures looked { Looked D.means disk.old disk.new result }
    ensures cause { HasCause (D.means.faults disk.old) (D.means.faults disk.new) result }
    ensures bytes { IfOk result (λ part. IfSome (D.means.told disk.old) (λ bytes.
        place + 3 ≤ length bytes → part ≡ slice_range bytes place (place + 3))) }
    ensures seen { D.means.seen_len disk.new ≡ D.means.seen_len disk.old }
{
    let mut part = [0; 3];
    disk.read_at(place, &mut part)?;
    Ok(part)
}

/// The state bytes of a segment in planes.
pub fn read_planes<D: Disk>(
    disk: &mut D,
    layout: Layout,
    segment: u32,
) -> Result<SegmentMarks, DiskFailed>
    requires place { segment < 28 * layout.segments_per_track }
    requires planes { layout.kind ≡ Kind.Planes }
    ensures looked { Looked D.means disk.old disk.new result }
    ensures cause { HasCause (D.means.faults disk.old) (D.means.faults disk.new) result }
    ensures marks { IfOk result (λ marks. IfSome (D.means.told disk.old) (λ bytes.
        end_of layout ≤ length bytes → AreMarks layout segment bytes marks)) }
    ensures seen { D.means.seen_len disk.new ≡ D.means.seen_len disk.old }
{
    let first = 32 * segment as u64;
    let defects = read_plane(disk, layout.place(Part::DefectByte, first))?;
    let formed = read_plane(disk, layout.place(Part::FormedByte, first))?;
    let gates = read_plane(disk, layout.place(Part::GateByte, first))?;
    Ok(SegmentMarks {
        gates,
        formed,
        defects,
    })
}

/// Reads as many bytes from a place on as fit. False where the disk fails in that, or has fewer.
pub fn read_whole<D: Disk>(disk: &mut D, place: u64, into: &mut [u8]) -> bool
    requires settled { IsSettled D.means disk.old }
    ensures looks { Looks D.means disk.old disk.new }
    ensures bytes { result ≡ true → IfSome (D.means.told disk.old) (λ bytes.
        place + length into.old ≤ length bytes →
        into.new ≡ slice_range bytes place (place + length into.old)) }
    ensures seen { D.means.seen_len disk.new ≡ D.means.seen_len disk.old }
{
    match disk.read_at(place, into) {
        Ok(count) => count == into.len(),
        Err(DiskFailed) => false,
    }
}

/// The state bytes among those of the 32 cells of a segment.
pub fn marks_in(cells: &Cells) -> SegmentMarks
    ensures gates { (i : ℕ) → i < 32 →
        slice_index result.gates i ≡ slice_index cells.now (cell_len * i) }
    ensures formed { (i : ℕ) → i < 32 →
        slice_index result.formed i ≡ slice_index cells.now (cell_len * i + 1) }
    ensures defects { (i : ℕ) → i < 32 →
        slice_index result.defects i ≡ slice_index cells.now (cell_len * i + 2) }
{
    let mut gates = [0; 32];
    let mut formed = [0; 32];
    let mut defects = [0; 32];
    for i in 0..32 {
        gates[i] = cells[CELL_LEN * i];
        formed[i] = cells[CELL_LEN * i + 1];
        defects[i] = cells[CELL_LEN * i + 2];
    }
    SegmentMarks {
        gates,
        formed,
        defects,
    }
}

/// The state bytes of a segment in cells, read with all its bytes at once; None where the disk fails in these or has fewer.
pub fn read_marks_at_once<D: Disk>(
    disk: &mut D,
    layout: Layout,
    segment: u32,
) -> Option<SegmentMarks>
    requires place { segment < 28 * layout.segments_per_track }
    requires cells { touches layout.kind ≡ false }
    requires settled { IsSettled D.means disk.old }
    ensures looks { Looks D.means disk.old disk.new }
    ensures marks { IfSome result (λ marks. IfSome (D.means.told disk.old) (λ bytes.
        end_of layout ≤ length bytes → AreMarks layout segment bytes marks)) }
    ensures seen { D.means.seen_len disk.new ≡ D.means.seen_len disk.old }
{
    let place = layout.place(Part::GateByte, 32 * segment as u64);
    let mut cells = [0; CELLS_LEN];
    if !read_whole(disk, place, &mut cells) {
        return None;
    }
    Some(marks_in(&cells))
}

/// The state bytes of a segment in cells, read sector by sector.
fn read_all_flags<D: Disk>(
    disk: &mut D,
    layout: Layout,
    segment: u32,
) -> Result<SegmentMarks, DiskFailed>
    requires place { segment < 28 * layout.segments_per_track }
    requires cells { touches layout.kind ≡ false }
    ensures looked { Looked D.means disk.old disk.new result }
    ensures marks { IfOk result (λ marks. IfSome (D.means.told disk.old) (λ bytes.
        end_of layout ≤ length bytes → AreMarks layout segment bytes marks)) }
    ensures seen { D.means.seen_len disk.new ≡ D.means.seen_len disk.old }
{
    let first = 32 * segment as u64;
    let mut gates = [0; 32];
    let mut formed = [0; 32];
    let mut defects = [0; 32];
    for i in 0..32 {
        let flags = read_flags(disk, layout.place(Part::GateByte, first + i as u64))?;
        gates[i] = flags[0];
        formed[i] = flags[1];
        defects[i] = flags[2];
    }
    Ok(SegmentMarks {
        gates,
        formed,
        defects,
    })
}

/// The state bytes of a segment in cells: all its bytes are read at once, and its state bytes alone where the disk fails in
/// that. So it fails only where the disk fails in these.
fn read_cell_marks<D: Disk>(
    disk: &mut D,
    layout: Layout,
    segment: u32,
) -> Result<SegmentMarks, DiskFailed>
    requires place { segment < 28 * layout.segments_per_track }
    requires cells { touches layout.kind ≡ false }
    requires settled { IsSettled D.means disk.old }
    ensures looked { Looked D.means disk.old disk.new result }
    ensures marks { IfOk result (λ marks. IfSome (D.means.told disk.old) (λ bytes.
        end_of layout ≤ length bytes → AreMarks layout segment bytes marks)) }
    ensures seen { D.means.seen_len disk.new ≡ D.means.seen_len disk.old }
{
    match read_marks_at_once(disk, layout, segment) {
        Some(marks) => Ok(marks),
        None => read_all_flags(disk, layout, segment),
    }
}

/// The state bytes of the sectors of a segment.
pub fn read_marks<D: Disk>(
    disk: &mut D,
    layout: Layout,
    segment: u32,
) -> Result<SegmentMarks, DiskFailed>
    requires place { segment < 28 * layout.segments_per_track }
    requires settled { IsSettled D.means disk.old }
    ensures looked { Looked D.means disk.old disk.new result }
    ensures marks { IfOk result (λ marks. IfSome (D.means.told disk.old) (λ bytes.
        end_of layout ≤ length bytes → AreMarks layout segment bytes marks)) }
    ensures seen { D.means.seen_len disk.new ≡ D.means.seen_len disk.old }
{
    match layout.kind {
        Kind::Planes => read_planes(disk, layout, segment),
        Kind::Cells | Kind::CellsBehind => read_cell_marks(disk, layout, segment),
    }
}

/// What these state bytes say of the sectors of a segment.
pub fn states_by(marks: &SegmentMarks) -> [SectorState; 32]
    ensures { (i : ℕ) (bytes : List ℕ) → i < 32 → slice_index_or result i SectorState.Blank
        ≡ state_of (view_by (slice_index marks.now.defects i) (slice_index marks.now.formed i)
        (slice_index marks.now.gates i) bytes) }
{
    let mut states = [SectorState::Blank; 32];
    for i in 0..32 {
        states[i] = state_by(marks.defects[i], marks.formed[i], marks.gates[i]);
    }
    states
}

/// What the state bytes of a sector in a cell say.
pub fn read_state<D: Disk>(
    disk: &mut D,
    layout: Layout,
    sector: u64,
) -> Result<SectorState, DiskFailed>
    requires place { sector < sectors layout.segments_per_track }
    requires cells { touches layout.kind ≡ false }
    ensures looked { Looked D.means disk.old disk.new result }
    ensures cause { HasCause (D.means.faults disk.old) (D.means.faults disk.new) result }
    ensures state { IfOk result (λ state. IfSome (D.means.told disk.old) (λ bytes.
        end_of layout ≤ length bytes → state ≡ state_of (view_in layout bytes sector))) }
    ensures seen { D.means.seen_len disk.new ≡ D.means.seen_len disk.old }
{
    let flags = read_flags(disk, layout.place(Part::GateByte, sector))?;
    Ok(state_by(flags[2], flags[1], flags[0]))
}

/// The bytes of a sector; None where the disk has fewer.
pub fn read_bytes<D: Disk>(
    disk: &mut D,
    layout: Layout,
    sector: u64,
) -> Result<Option<Sector>, DiskFailed>
    requires { sector < sectors layout.segments_per_track }
    ensures looked { Looked D.means disk.old disk.new result }
    ensures bytes { IfOk result (λ found. IfSome (D.means.told disk.old) (λ bytes.
        end_of layout ≤ length bytes → found ≡ Some (sector_bytes layout bytes sector))) }
    ensures seen { D.means.seen_len disk.new ≡ D.means.seen_len disk.old }
{
    let mut bytes = [0; SECTOR];
    let count = disk.read_at(layout.place(Part::Data, sector), &mut bytes)?;
    Ok(if count == bytes.len() {
        Some(bytes)
    } else {
        None
    })
}
