//! Several sectors of a segment of an image file written, with one sync for each step of all of them.
ghost use Rattle.std.specs.Prelude.{◌≡◌, ◌≢◌, ℕ, ◌<◌, ◌≤◌, ◌*◌, ◌&&◌, true, false, length, slice_index_or, IfOk, IfSome};
ghost use Rattle.qic_base.specs.declared.tape.SectorView.{SectorView};
ghost use Rattle.qic_base.specs.CartridgeTerms.{is_lost, place_of};
ghost use Rattle.qic_base.specs.Disk.{IsSettled};
ghost use Rattle.cart_image.specs.Image.{segment_views, view_in};
ghost use Rattle.cart_image.specs.Layout.{end_of, overwrite_all, write_sectors_steps};
ghost use Rattle.cart_image.specs.Run.{Runs, Carried};
ghost use Rattle.qic_base.specs.TapeCalls.{is_readable, is_blank, AreBlank};
ghost use Rattle.cart_image.specs.Several.{takes_write, AreSectors};
ghost use Rattle.cart_image.specs.State.{state_of, AreStatesOf};

use crate::filling::fill;
use crate::layout::{CLOSED, Layout, OPEN, Part};
use crate::reading::SectorState;
use crate::segment::is_in;
use qic_base::{Disk, DiskFailed, LostSet, Sector};

/// Which of the sectors of a segment that are to be written have their gates closed first, and which take the write; and
/// those that were never formatted.
#[derive(Clone, Copy)]
struct Chosen {
    readable: [bool; 32],
    taking: [bool; 32],
    blank: LostSet,
}

/// The set with a sector more, where that is to be.
pub fn with_sector(set: LostSet, sector: usize, is_more: bool) -> LostSet
    requires place { sector < 32 }
    requires new { is_lost set sector ≡ false }
    ensures same { is_lost result sector ≡ is_more }
    ensures others { (i : ℕ) → i ≢ sector → is_lost result i ≡ is_lost set i }
{
    if is_more {
        LostSet::from_mask(set.mask() | 1 << sector)
    } else {
        set
    }
}

/// Whether a sector in this state is to be written and has an open gate.
pub fn closes(is_written: bool, state: SectorState) -> bool
    ensures { (view : SectorView) → (is_written ≡ true → state ≡ state_of view) →
        result ≡ (is_written && is_readable view) }
{
    match state {
        SectorState::Readable => is_written,
        SectorState::Blank | SectorState::Defect | SectorState::Lost => false,
    }
}

/// Whether it is to be written and takes the write: it was formatted, and is no defect.
fn takes(is_written: bool, state: SectorState) -> bool
    ensures { (view : SectorView) → (is_written ≡ true → state ≡ state_of view) →
        result ≡ (is_written && takes_write view) }
{
    match state {
        SectorState::Lost | SectorState::Readable => is_written,
        SectorState::Blank | SectorState::Defect => false,
    }
}

/// Whether it is to be written and was never formatted.
pub fn refuses(is_written: bool, state: SectorState) -> bool
    ensures { (view : SectorView) → (is_written ≡ true → state ≡ state_of view) →
        result ≡ (is_written && is_blank view) }
{
    match state {
        SectorState::Blank => is_written,
        SectorState::Defect | SectorState::Lost | SectorState::Readable => false,
    }
}

/// Chooses among the sectors that are to be written, by their states.
fn choose(states: &[SectorState; 32], written: LostSet) -> Chosen
    ensures readable { (view : SectorView) (i : ℕ) → i < 32 →
        (is_lost written i ≡ true → slice_index_or states.now i SectorState.Blank ≡ state_of view) →
        slice_index_or result.readable i false ≡ (is_lost written i && is_readable view) }
    ensures taking { (view : SectorView) (i : ℕ) → i < 32 →
        (is_lost written i ≡ true → slice_index_or states.now i SectorState.Blank ≡ state_of view) →
        slice_index_or result.taking i false ≡ (is_lost written i && takes_write view) }
    ensures blank { (view : SectorView) (i : ℕ) → i < 32 →
        (is_lost written i ≡ true → slice_index_or states.now i SectorState.Blank ≡ state_of view) →
        is_lost result.blank i ≡ (is_lost written i && is_blank view) }
{
    let mut readable = [false; 32];
    let mut taking = [false; 32];
    let mut blank = LostSet::from_mask(0);
    for i in 0..32 {
        let is_written = is_in(written, i);
        readable[i] = closes(is_written, states[i]);
        taking[i] = takes(is_written, states[i]);
        blank = with_sector(blank, i, refuses(is_written, states[i]));
    }
    Chosen {
        readable,
        taking,
        blank,
    }
}

/// Closes the gates of some sectors of a segment, writes those that take it, and opens their gates.
#[tactic(auto, unfolding(crate::specs::Layout::overwrite_all, crate::specs::Layout::even))]
fn overwrite<D: Disk>(
    disk: &mut D,
    layout: Layout,
    segment: u32,
    chosen: &Chosen,
    from: &[Sector],
) -> Result<(), DiskFailed>
    requires count { length from.now ≡ 32 }
    requires place { segment < 28 * layout.segments_per_track }
    requires covers { end_of layout ≤ D.means.seen_len disk.old }
    requires settled { IsSettled D.means disk.old }
    ensures ran { Runs D.means disk.old disk.new (overwrite_all layout segment from.now
        chosen.now.readable chosen.now.taking) result }
    ensures settled { IsSettled D.means disk.new }
    ensures seen { D.means.seen_len disk.new ≡ D.means.seen_len disk.old }
{
    let first = 32 * segment as u64;
    fill(
        disk,
        layout,
        Part::GateByte,
        &[CLOSED; 32],
        first,
        &chosen.readable,
    )?;
    fill(
        disk,
        layout,
        Part::Data,
        from.as_flattened(),
        first,
        &chosen.taking,
    )?;
    fill(
        disk,
        layout,
        Part::GateByte,
        &[OPEN; 32],
        first,
        &chosen.taking,
    )
}

/// Writes the sectors of a segment that are in a set, of which the state bytes say this, each with its entry. Answers
/// those that take none since they were never formatted.
pub fn write_sectors<D: Disk>(
    disk: &mut D,
    layout: Layout,
    segment: u32,
    states: &[SectorState; 32],
    written: LostSet,
    from: &[Sector],
) -> Result<LostSet, DiskFailed>
    requires count { length from.now ≡ 32 }
    requires place { segment < 28 * layout.segments_per_track }
    requires covers { end_of layout ≤ D.means.seen_len disk.old }
    requires settled { IsSettled D.means disk.old }
    requires states { IfSome (D.means.told disk.old) (λ bytes.
        AreStatesOf layout segment written bytes states.now) }
    ensures carried { Carried D.means disk.old disk.new (λ bytes. write_sectors_steps
        layout segment written from.now (segment_views layout segment bytes)) result }
    ensures answer { IfOk result (λ blank. IfSome (D.means.told disk.old) (λ bytes.
        AreBlank written blank (λ i. view_in layout bytes (place_of segment i)))) }
    ensures sectors { AreSectors from.now }
    ensures settled { IsSettled D.means disk.new }
    ensures seen { D.means.seen_len disk.new ≡ D.means.seen_len disk.old }
{
    let chosen = choose(states, written);
    overwrite(disk, layout, segment, &chosen, from)?;
    Ok(chosen.blank)
}
