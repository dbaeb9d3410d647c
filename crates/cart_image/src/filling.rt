//! A part of chosen ones of the sectors of a segment written: one write for neighbours, and one sync.
ghost use Rattle.std.specs.Prelude.{◌≡◌, ◌+◌, ◌*◌, ◌<◌, ◌≤◌, ◌⊎◌, true, length, IfOk};
ghost use Rattle.std.specs.List.{list_any};
ghost use Rattle.qic_base.specs.Disk.{IsSettled};
ghost use Rattle.cart_image.specs.Layout.{sectors, end_of, width, touches, run_write, step_writes, step_under, fill_writes, fill as fill_steps};
ghost use Rattle.cart_image.specs.Run.{Runs};

use crate::layout::{Layout, Part, part_len};
use qic_base::{Disk, DiskFailed};

/// Writes a part of `count` neighbouring sectors, which those of 32 sectors have in `values`; `at` of these are before
/// them.
fn write_run<D: Disk>(
    disk: &mut D,
    layout: Layout,
    part: Part,
    values: &[u8],
    first: u64,
    at: usize,
    count: usize,
) -> Result<(), DiskFailed>
    requires few { at + count ≤ 32 }
    requires whole { length values.now ≡ width part * 32 }
    requires on { first + 32 ≤ sectors layout.segments_per_track }
    requires meet { touches layout.kind ≡ true ⊎ count ≤ 1 }
    requires covers { end_of layout ≤ D.means.seen_len disk.old }
    ensures ran { Runs D.means disk.old disk.new
        (run_write layout part values.now first at count) result }
    ensures seen { D.means.seen_len disk.new ≡ D.means.seen_len disk.old }
{
    if count > 0 {
        let len = part_len(part);
        let place = layout.place(part, first + at as u64);
        disk.write_at(place, &values[len * at..len * (at + count)])?;
    }
    Ok(())
}

/// Goes on by one sector, whether it is chosen or not, with a run under way that ends before it. Answers the length of
/// the run that is under way then.
fn step<D: Disk>(
    disk: &mut D,
    layout: Layout,
    part: Part,
    values: &[u8],
    first: u64,
    at: usize,
    is_chosen: bool,
    under: usize,
) -> Result<usize, DiskFailed>
    requires few { at < 32 }
    requires whole { length values.now ≡ width part * 32 }
    requires on { first + 32 ≤ sectors layout.segments_per_track }
    requires behind { under ≤ at }
    requires meet { touches layout.kind ≡ true ⊎ under ≡ 0 }
    requires covers { end_of layout ≤ D.means.seen_len disk.old }
    ensures ran { Runs D.means disk.old disk.new
        (step_writes layout part values.now first at is_chosen under) result }
    ensures under { IfOk result (λ u. u ≡ step_under layout.kind is_chosen under) }
    ensures seen { D.means.seen_len disk.new ≡ D.means.seen_len disk.old }
{
    if !is_chosen {
        write_run(disk, layout, part, values, first, at - under, under)?;
        return Ok(0);
    }
    if layout.touches() {
        return Ok(under + 1);
    }
    write_run(disk, layout, part, values, first, at, 1)?;
    Ok(under)
}

/// Writes a part of the chosen ones of 32 sectors, one write for neighbours.
fn write_chosen<D: Disk>(
    disk: &mut D,
    layout: Layout,
    part: Part,
    values: &[u8],
    first: u64,
    chosen: &[bool; 32],
) -> Result<(), DiskFailed>
    requires whole { length values.now ≡ width part * 32 }
    requires on { first + 32 ≤ sectors layout.segments_per_track }
    requires covers { end_of layout ≤ D.means.seen_len disk.old }
    ensures ran { Runs D.means disk.old disk.new
        (fill_writes layout part values.now first 0 chosen.now 0) result }
    ensures seen { D.means.seen_len disk.new ≡ D.means.seen_len disk.old }
{
    let mut under: usize = 0;
    for (i, is_chosen) in chosen.iter().enumerate() {
        under = step(disk, layout, part, values, first, i, *is_chosen, under)?;
    }
    write_run(disk, layout, part, values, first, 32 - under, under)
}

/// Whether any of 32 sectors is chosen.
fn is_any(chosen: &[bool; 32]) -> bool
    ensures { result ≡ list_any (λ c. c) chosen.now }
{
    chosen.iter().any(|c| *c)
}

/// Writes a part of the chosen ones of 32 sectors, and puts that on the disk.
pub fn fill<D: Disk>(
    disk: &mut D,
    layout: Layout,
    part: Part,
    values: &[u8],
    first: u64,
    chosen: &[bool; 32],
) -> Result<(), DiskFailed>
    requires whole { length values.now ≡ width part * 32 }
    requires on { first + 32 ≤ sectors layout.segments_per_track }
    requires covers { end_of layout ≤ D.means.seen_len disk.old }
    requires settled { IsSettled D.means disk.old }
    ensures ran { Runs D.means disk.old disk.new
        (fill_steps layout part values.now first chosen.now) result }
    ensures settled { IsSettled D.means disk.new }
    ensures seen { D.means.seen_len disk.new ≡ D.means.seen_len disk.old }
{
    if is_any(chosen) {
        write_chosen(disk, layout, part, values, first, chosen)?;
        disk.sync()
    } else {
        Ok(())
    }
}
