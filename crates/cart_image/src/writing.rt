//! One sector of an image file made unreadable or made a defect, and a mark set or cleared.
ghost use Rattle.std.specs.Prelude.{◌≡◌, ◌<◌, ◌≤◌, [], ◌∷◌, true, false, slice_index, IfOk, IfSome};
ghost use Rattle.qic_base.specs.Disk.{IsSettled};
ghost use Rattle.qic_base.specs.Tape.{spoil_answer};
ghost use Rattle.cart_image.specs.Image.{view_in};
ghost use Rattle.cart_image.specs.Layout.{sectors, place as place_at, end_of, wear_steps, spoil_steps, mark_steps, put as put_steps};
ghost use Rattle.cart_image.specs.Run.{Runs, Carried};
ghost use Rattle.cart_image.specs.State.{state_of};

use crate::layout::{CLOSED, DEFECT, Layout, MARK, Part};
use crate::reading::{SectorState, read_byte};
use crate::synced::put;
use qic_base::{Disk, DiskFailed};

/// Writes the gate of a sector.
fn put_gate<D: Disk>(disk: &mut D, layout: Layout, sector: u64, gate: u8) -> Result<(), DiskFailed>
    requires place { sector < sectors layout.segments_per_track }
    requires covers { end_of layout ≤ D.means.seen_len disk.old }
    ensures ran { Runs D.means disk.old disk.new
        (put_steps (place_at layout Part.GateByte sector) (gate ∷ [])) result }
    ensures settled { IsSettled D.means disk.new }
    ensures seen { D.means.seen_len disk.new ≡ D.means.seen_len disk.old }
{
    put(disk, layout.place(Part::GateByte, sector), &[gate])
}

/// Makes a sector of which the state bytes say this unreadable, where it is readable.
pub fn wear<D: Disk>(
    disk: &mut D,
    layout: Layout,
    sector: u64,
    state: SectorState,
) -> Result<(), DiskFailed>
    requires place { sector < sectors layout.segments_per_track }
    requires covers { end_of layout ≤ D.means.seen_len disk.old }
    requires settled { IsSettled D.means disk.old }
    requires state { IfSome (D.means.told disk.old) (λ bytes.
        state ≡ state_of (view_in layout bytes sector)) }
    ensures carried { Carried D.means disk.old disk.new (λ bytes. wear_steps
        layout sector (view_in layout bytes sector)) result }
    ensures settled { IsSettled D.means disk.new }
    ensures seen { D.means.seen_len disk.new ≡ D.means.seen_len disk.old }
{
    match state {
        SectorState::Readable => put_gate(disk, layout, sector, CLOSED),
        SectorState::Blank | SectorState::Defect | SectorState::Lost => Ok(()),
    }
}

/// Makes a defect of a sector of which the state bytes say this, where it was never formatted. Answers whether it is a
/// defect now.
pub fn spoil<D: Disk>(
    disk: &mut D,
    layout: Layout,
    sector: u64,
    state: SectorState,
) -> Result<bool, DiskFailed>
    requires place { sector < sectors layout.segments_per_track }
    requires covers { end_of layout ≤ D.means.seen_len disk.old }
    requires settled { IsSettled D.means disk.old }
    requires state { IfSome (D.means.told disk.old) (λ bytes.
        state ≡ state_of (view_in layout bytes sector)) }
    ensures carried { Carried D.means disk.old disk.new (λ bytes. spoil_steps
        layout sector (view_in layout bytes sector)) result }
    ensures answer { IfOk result (λ answer. IfSome (D.means.told disk.old) (λ bytes.
        answer ≡ spoil_answer (view_in layout bytes sector))) }
    ensures settled { IsSettled D.means disk.new }
    ensures seen { D.means.seen_len disk.new ≡ D.means.seen_len disk.old }
{
    match state {
        SectorState::Blank => {
            put(disk, layout.place(Part::DefectByte, sector), &[DEFECT])?;
            Ok(true)
        }
        SectorState::Defect => Ok(true),
        SectorState::Lost | SectorState::Readable => Ok(false),
    }
}

/// Sets or clears the mark whose byte stands at a place.
pub fn set_mark<D: Disk>(disk: &mut D, place: u64, on: bool) -> Result<(), DiskFailed>
    requires covers { place < D.means.seen_len disk.old }
    requires settled { IsSettled D.means disk.old }
    ensures carried { Carried D.means disk.old disk.new
        (λ bytes. mark_steps place on (slice_index bytes place)) result }
    ensures settled { IsSettled D.means disk.new }
    ensures seen { D.means.seen_len disk.new ≡ D.means.seen_len disk.old }
{
    let stands = read_byte(disk, place)? == MARK;
    match (on, stands) {
        (true, false) => put(disk, place, &[MARK]),
        (false, true) => put(disk, place, &[0]),
        (true, true) | (false, false) => Ok(()),
    }
}
