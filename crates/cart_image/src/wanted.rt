//! What an image file holds of the sectors of a segment that are asked for.
ghost use Rattle.std.specs.Prelude.{◌≡◌, ◌≢◌, ℕ, ◌+◌, ◌*◌, ◌<◌, ◌≤◌, ◌&&◌, if◌then◌else◌, [], length, slice_index_or, slice_range, true, false, IfOk, IfSome, OnErr};
ghost use Rattle.qic_base.specs.declared.tape.SectorView.{SectorView};
ghost use Rattle.qic_base.specs.CartridgeTerms.{is_lost, place_of};
ghost use Rattle.qic_base.specs.Disk.{IsSettled};
ghost use Rattle.cart_image.specs.Image.{view_in, sector_bytes};
ghost use Rattle.cart_image.specs.Layout.{sectors, end_of, touches};
ghost use Rattle.cart_image.specs.Run.{Looks, Looked};
ghost use Rattle.qic_base.specs.TapeCalls.{is_readable, is_blank, ReadsSectors, KeepsOthers};
ghost use Rattle.cart_image.specs.State.{state_of, AreStatesOf, GotBytes};

use crate::layout::{CELL_LEN, CELLS_LEN, Layout, Part};
use crate::reading::{
    SectorState, marks_in, read_bytes, read_marks_at_once, read_state, read_whole, states_by,
};
use crate::segment::is_in;
use crate::several::{closes, refuses, with_sector};
use qic_base::{Disk, DiskFailed, LostSet, Sector, SectorsRead};

/// What the state bytes of a sector in a cell say, where it is wanted.
fn read_state_if<D: Disk>(
    disk: &mut D,
    layout: Layout,
    sector: u64,
    is_wanted: bool,
) -> Result<SectorState, DiskFailed>
    requires place { sector < sectors layout.segments_per_track }
    requires cells { touches layout.kind ≡ false }
    ensures looked { Looked D.means disk.old disk.new result }
    ensures state { is_wanted ≡ true → IfOk result (λ state. IfSome (D.means.told disk.old) (λ bytes.
        end_of layout ≤ length bytes → state ≡ state_of (view_in layout bytes sector))) }
    ensures seen { D.means.seen_len disk.new ≡ D.means.seen_len disk.old }
{
    if is_wanted {
        read_state(disk, layout, sector)
    } else {
        Ok(SectorState::Blank)
    }
}

/// What the state bytes say of the wanted sectors of a segment in cells, read sector by sector.
fn read_each_state<D: Disk>(
    disk: &mut D,
    layout: Layout,
    segment: u32,
    wanted: LostSet,
) -> Result<[SectorState; 32], DiskFailed>
    requires place { segment < 28 * layout.segments_per_track }
    requires cells { touches layout.kind ≡ false }
    ensures looked { Looked D.means disk.old disk.new result }
    ensures states { IfOk result (λ states. IfSome (D.means.told disk.old) (λ bytes.
        end_of layout ≤ length bytes → AreStatesOf layout segment wanted bytes states)) }
    ensures seen { D.means.seen_len disk.new ≡ D.means.seen_len disk.old }
{
    let first = 32 * segment as u64;
    let mut states = [SectorState::Blank; 32];
    for i in 0..32 {
        states[i] = read_state_if(disk, layout, first + i as u64, is_in(wanted, i))?;
    }
    Ok(states)
}

/// What the state bytes say of all sectors of a segment in cells, read with all its bytes at once; None where the disk fails
/// in these or has fewer.
fn read_all_states<D: Disk>(disk: &mut D, layout: Layout, segment: u32) -> Option<[SectorState; 32]>
    requires place { segment < 28 * layout.segments_per_track }
    requires cells { touches layout.kind ≡ false }
    requires settled { IsSettled D.means disk.old }
    ensures looks { Looks D.means disk.old disk.new }
    ensures states { (wanted : ℕ) → IfSome result (λ states. IfSome (D.means.told disk.old) (λ bytes.
        end_of layout ≤ length bytes → AreStatesOf layout segment wanted bytes states)) }
    ensures seen { D.means.seen_len disk.new ≡ D.means.seen_len disk.old }
{
    match read_marks_at_once(disk, layout, segment) {
        Some(marks) => Some(states_by(&marks)),
        None => None,
    }
}

/// Of so few sectors the state bytes are read sooner one by one than all at once, and in less room.
const FEW: u8 = 4;

/// What the state bytes say of the wanted sectors of a segment in cells: all its bytes are read at once, and just those
/// state bytes where few sectors are wanted, or the disk fails in that. So it fails only where the disk fails in these.
pub fn read_states<D: Disk>(
    disk: &mut D,
    layout: Layout,
    segment: u32,
    wanted: LostSet,
) -> Result<[SectorState; 32], DiskFailed>
    requires place { segment < 28 * layout.segments_per_track }
    requires cells { touches layout.kind ≡ false }
    requires settled { IsSettled D.means disk.old }
    ensures looked { Looked D.means disk.old disk.new result }
    ensures states { IfOk result (λ states. IfSome (D.means.told disk.old) (λ bytes.
        end_of layout ≤ length bytes → AreStatesOf layout segment wanted bytes states)) }
    ensures seen { D.means.seen_len disk.new ≡ D.means.seen_len disk.old }
{
    if wanted.count() <= FEW {
        return read_each_state(disk, layout, segment, wanted);
    }
    match read_all_states(disk, layout, segment) {
        Some(states) => Ok(states),
        None => read_each_state(disk, layout, segment, wanted),
    }
}

/// Which of the wanted sectors of a segment can be read, and which were never formatted, by their states.
fn words(states: &[SectorState; 32], wanted: LostSet) -> SectorsRead
    ensures good { (view : SectorView) (i : ℕ) → i < 32 →
        (is_lost wanted i ≡ true → slice_index_or states.now i SectorState.Blank ≡ state_of view) →
        is_lost result.good i ≡ (is_lost wanted i && is_readable view) }
    ensures blank { (view : SectorView) (i : ℕ) → i < 32 →
        (is_lost wanted i ≡ true → slice_index_or states.now i SectorState.Blank ≡ state_of view) →
        is_lost result.blank i ≡ (is_lost wanted i && is_blank view) }
{
    let mut good = LostSet::from_mask(0);
    let mut blank = LostSet::from_mask(0);
    for i in 0..32 {
        let is_wanted = is_in(wanted, i);
        good = with_sector(good, i, closes(is_wanted, states[i]));
        blank = with_sector(blank, i, refuses(is_wanted, states[i]));
    }
    SectorsRead { good, blank }
}

/// Copies the bytes of a sector, where they are good.
fn copy_if(is_good: bool, bytes: &[u8], into: &mut Sector)
    requires { length bytes.now ≡ 1024 }
    ensures { into.new ≡ (if is_good then bytes.now else into.old) }
{
    if is_good {
        into.copy_from_slice(bytes);
    }
}

/// Copies the bytes of the good ones of 32 sectors, which stand among others so far from each other.
fn copy_good(good: LostSet, bytes: &[u8], start: usize, stride: usize, into: &mut [Sector])
    requires count { length into.old ≡ 32 }
    requires fits { (i : ℕ) → i < 32 → start + stride * i + 1024 ≤ length bytes.now }
    ensures count { length into.new ≡ 32 }
    ensures copied { (i : ℕ) → i < 32 → slice_index_or into.new i [] ≡
        (if is_lost good i then slice_range bytes.now (start + stride * i) (start + stride * i + 1024)
        else slice_index_or into.old i []) }
{
    for i in 0..32 {
        let place = start + stride * i;
        copy_if(is_in(good, i), &bytes[place..place + 1024], &mut into[i]);
    }
}

/// Reads the bytes of a sector, where they are good. Answers whether `into` holds them.
fn read_bytes_if<D: Disk>(
    disk: &mut D,
    layout: Layout,
    sector: u64,
    is_good: bool,
    into: &mut Sector,
) -> Result<bool, DiskFailed>
    requires place { sector < sectors layout.segments_per_track }
    ensures looked { Looked D.means disk.old disk.new result }
    ensures got { IfOk result (λ got. IfSome (D.means.told disk.old) (λ bytes.
        end_of layout ≤ length bytes → got ≡ is_good)) }
    ensures bytes { IfOk result (λ got. IfSome (D.means.told disk.old) (λ bytes.
        end_of layout ≤ length bytes →
        into.new ≡ (if is_good then sector_bytes layout bytes sector else into.old))) }
    ensures kept { result ≢ Ok true → into.new ≡ into.old }
    ensures seen { D.means.seen_len disk.new ≡ D.means.seen_len disk.old }
{
    if !is_good {
        return Ok(false);
    }
    match read_bytes(disk, layout, sector)? {
        Some(bytes) => {
            *into = bytes;
            Ok(true)
        }
        None => Ok(false),
    }
}

/// Reads the bytes of the good ones of the sectors of a segment, sector by sector. Answers those that `into`
/// holds.
fn read_each_bytes<D: Disk>(
    disk: &mut D,
    layout: Layout,
    segment: u32,
    good: LostSet,
    into: &mut [Sector],
) -> Result<LostSet, DiskFailed>
    requires place { segment < 28 * layout.segments_per_track }
    requires count { length into.old ≡ 32 }
    ensures looked { Looked D.means disk.old disk.new result }
    ensures bytes { IfOk result (λ got. IfSome (D.means.told disk.old) (λ bytes.
        end_of layout ≤ length bytes →
        GotBytes layout segment bytes good got into.old into.new)) }
    ensures kept { IfOk result (λ got. KeepsOthers got into.old into.new) }
    ensures seen { D.means.seen_len disk.new ≡ D.means.seen_len disk.old }
{
    let first = 32 * segment as u64;
    let mut got = LostSet::from_mask(0);
    for i in 0..32 {
        let is_got = read_bytes_if(disk, layout, first + i as u64, is_in(good, i), &mut into[i])?;
        got = with_sector(got, i, is_got);
    }
    Ok(got)
}

/// As `read_each_bytes`, into 32 sectors, which a failure leaves as they were.
fn read_all_bytes<D: Disk>(
    disk: &mut D,
    layout: Layout,
    segment: u32,
    good: LostSet,
    into: &mut [Sector; 32],
) -> Result<LostSet, DiskFailed>
    requires place { segment < 28 * layout.segments_per_track }
    ensures looked { Looked D.means disk.old disk.new result }
    ensures bytes { IfOk result (λ got. IfSome (D.means.told disk.old) (λ bytes.
        end_of layout ≤ length bytes →
        GotBytes layout segment bytes good got into.old into.new)) }
    ensures kept { IfOk result (λ got. KeepsOthers got into.old into.new) }
    ensures unchanged { OnErr result (into.new ≡ into.old) }
    ensures seen { D.means.seen_len disk.new ≡ D.means.seen_len disk.old }
{
    let mut found = *into;
    let got = read_each_bytes(disk, layout, segment, good, &mut found)?;
    *into = found;
    Ok(got)
}

/// Reads the wanted sectors of a segment in cells: their state bytes, and the bytes of those that these say can be read.
fn read_apart<D: Disk>(
    disk: &mut D,
    layout: Layout,
    segment: u32,
    wanted: LostSet,
    into: &mut [Sector; 32],
) -> Result<SectorsRead, DiskFailed>
    requires place { segment < 28 * layout.segments_per_track }
    requires cells { touches layout.kind ≡ false }
    ensures looked { Looked D.means disk.old disk.new result }
    ensures reads { IfOk result (λ read. IfSome (D.means.told disk.old) (λ bytes.
        end_of layout ≤ length bytes → ReadsSectors wanted read.good read.blank
        (λ i. view_in layout bytes (place_of segment i)) into.old into.new)) }
    ensures kept { IfOk result (λ read. KeepsOthers read.good into.old into.new) }
    ensures unchanged { OnErr result (into.new ≡ into.old) }
    ensures seen { D.means.seen_len disk.new ≡ D.means.seen_len disk.old }
{
    let states = read_each_state(disk, layout, segment, wanted)?;
    let read = words(&states, wanted);
    let good = read_all_bytes(disk, layout, segment, read.good, into)?;
    Ok(SectorsRead {
        good,
        blank: read.blank,
    })
}

/// Reads the wanted sectors of a segment in cells: all its bytes at once, and where the disk fails in that just those
/// that are asked for. So it fails only where the disk fails in these.
pub fn read_in_cells<D: Disk>(
    disk: &mut D,
    layout: Layout,
    segment: u32,
    wanted: LostSet,
    into: &mut [Sector; 32],
) -> Result<SectorsRead, DiskFailed>
    requires place { segment < 28 * layout.segments_per_track }
    requires cells { touches layout.kind ≡ false }
    requires settled { IsSettled D.means disk.old }
    ensures looked { Looked D.means disk.old disk.new result }
    ensures reads { IfOk result (λ read. IfSome (D.means.told disk.old) (λ bytes.
        end_of layout ≤ length bytes → ReadsSectors wanted read.good read.blank
        (λ i. view_in layout bytes (place_of segment i)) into.old into.new)) }
    ensures kept { IfOk result (λ read. KeepsOthers read.good into.old into.new) }
    ensures unchanged { OnErr result (into.new ≡ into.old) }
    ensures seen { D.means.seen_len disk.new ≡ D.means.seen_len disk.old }
{
    let place = layout.place(Part::GateByte, 32 * segment as u64);
    let mut cells = [0; CELLS_LEN];
    if !read_whole(disk, place, &mut cells) {
        return read_apart(disk, layout, segment, wanted, into);
    }
    let states = states_by(&marks_in(&cells));
    let read = words(&states, wanted);
    copy_good(read.good, &cells, 3, CELL_LEN, into);
    Ok(read)
}

/// Reads the wanted sectors of a segment in planes, of which the state bytes say this: the bytes of all its sectors at
/// once, and where the disk fails in that just those that are asked for.
pub fn read_in_planes<D: Disk>(
    disk: &mut D,
    layout: Layout,
    segment: u32,
    states: &[SectorState; 32],
    wanted: LostSet,
    into: &mut [Sector; 32],
) -> Result<SectorsRead, DiskFailed>
    requires place { segment < 28 * layout.segments_per_track }
    requires planes { touches layout.kind ≡ true }
    requires settled { IsSettled D.means disk.old }
    requires states { IfSome (D.means.told disk.old) (λ bytes.
        AreStatesOf layout segment wanted bytes states.now) }
    ensures looked { Looked D.means disk.old disk.new result }
    ensures reads { IfOk result (λ read. IfSome (D.means.told disk.old) (λ bytes.
        end_of layout ≤ length bytes → ReadsSectors wanted read.good read.blank
        (λ i. view_in layout bytes (place_of segment i)) into.old into.new)) }
    ensures kept { IfOk result (λ read. KeepsOthers read.good into.old into.new) }
    ensures unchanged { OnErr result (into.new ≡ into.old) }
    ensures seen { D.means.seen_len disk.new ≡ D.means.seen_len disk.old }
{
    let read = words(states, wanted);
    let place = layout.place(Part::Data, 32 * segment as u64);
    let mut block = [0; 32768];
    if read_whole(disk, place, &mut block) {
        copy_good(read.good, &block, 0, 1024, into);
        return Ok(read);
    }
    let good = read_all_bytes(disk, layout, segment, read.good, into)?;
    Ok(SectorsRead {
        good,
        blank: read.blank,
    })
}
