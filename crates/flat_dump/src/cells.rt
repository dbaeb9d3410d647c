//! The segments of a dump, written as cells of an image.

ghost use Rattle.std.specs.Prelude.{◌≡◌, ◌+◌, ◌*◌, ◌++◌, ◌≤◌, ◌<◌, ℕ, List, length, replicate, IfOk, OnOk};
ghost use Rattle.rescue_map.specs.Laws.{most_words};
ghost use Rattle.cart_image.specs.Layout.{head_len, cells_len, append_steps};
ghost use Rattle.cart_image.specs.Run.{Runs};
ghost use Rattle.flat_dump.specs.Cells.{AreWhole, is_held as held_at, lost_cell, views_of, cells_of, joined};
ghost use Rattle.flat_dump.specs.Import.{lost_count};
ghost use Rattle.flat_dump.specs.Importing.{Unfinished, Goes, lost_cells};

use cart_image::CELL_LEN;
use cart_image::cells::{Cell, formed_cell};
use cart_image::making::append;
use qic_base::{Disk, DiskFailed, SECTOR, Sector};

/// Whether a sector was rescued, by its segment's word, and has all its bytes among the first ones of the segment.
fn is_held(word: u32, len: u32, index: u32) -> bool
    requires { index < 32 }
    ensures { result ≡ held_at word len index }
{
    word >> index & 1 == 1 && SECTOR as u32 * index + SECTOR as u32 <= len
}

/// Makes the cells of a segment, and counts the lost sectors.
fn fill_cells(sectors: &[Sector], len: u32, word: u32, cells: &mut [Cell]) -> u32
    requires sectors { length sectors.now ≡ 32 }
    requires cells { length cells.old ≡ 32 }
    ensures cells { cells.new ≡ cells_of word len sectors.now }
    ensures lost { result ≡ lost_count (views_of word len sectors.now) }
    ensures few { result ≤ 32 }
{
    let mut lost = 0;
    for index in 0..32 {
        let held = is_held(word, len, index);
        cells[index as usize] = formed_cell(&sectors[index as usize], held);
        if !held {
            lost += 1;
        }
    }
    lost
}

/// Writes a segment of a dump, of which the first bytes came, and counts its lost sectors.
pub fn write_segment<D: Disk>(
    disk: &mut D,
    segment: u32,
    sectors: &[Sector],
    len: u32,
    word: u32,
) -> Result<u32, DiskFailed>
    requires sectors { length sectors.now ≡ 32 }
    requires whole { AreWhole sectors.now }
    ensures ran { Runs D.means disk.old disk.new
        (append_steps segment (joined (cells_of word len sectors.now))) result }
    ensures seen { OnOk result (head_len ≤ D.means.seen_len disk.new) }
    ensures lost { IfOk result (λ lost. lost ≡ lost_count (views_of word len sectors.now)) }
    ensures few { IfOk result (λ lost. lost ≤ 32) }
{
    let mut cells = [[0; CELL_LEN]; 32];
    let lost = fill_cells(sectors, len, word, &mut cells);
    append(disk, segment, cells.as_flattened())?;
    Ok(lost)
}

/// The cells of a segment that a dump doesn't reach.
#[tactic(auto, unfolding(qic_base::specs::Cartridge::zero_sector))]
fn lost_segment() -> [Cell; 32]
    ensures { result ≡ replicate 32 lost_cell }
{
    [formed_cell(&[0; SECTOR], false); 32]
}

/// Writes the cells of lost sectors behind those of the segments before them, up to a segment.
pub fn append_lost<D: Disk>(disk: &mut D, from: u32, to: u32) -> Result<(), DiskFailed>
    requires order { from ≤ to }
    requires few { to ≤ most_words }
    requires seen { head_len ≤ D.means.seen_len disk.old }
    ensures goes { (first : D) (file : List ℕ) (more : ℕ) →
        length file ≡ head_len + cells_len * from → from + more ≡ to →
        Unfinished D.means first disk.old file →
        Goes D.means first disk.new (file ++ lost_cells more) result }
    ensures seen { OnOk result (head_len ≤ D.means.seen_len disk.new) }
{
    let cells = lost_segment();
    for segment in from..to {
        append(disk, segment, cells.as_flattened())?;
    }
    Ok(())
}
