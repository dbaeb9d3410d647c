//! The masks of segments.

ghost use Rattle.std.specs.Prelude.{◌≡◌, ◌<◌, ◌+◌, ◌-◌, ◌^◌, List, None, Some, length, slice_index, ℕ};
ghost use Rattle.dump_spec.specs.Header.{is_bad_by};
ghost use Rattle.dump_spec.specs.Lists.{BadSectors};
ghost use Rattle.dump_lists.specs.Masks.{IsBadSet};
ghost use Rattle.dump_header.specs.Marking.{AreMasks, MarksToo};

use crate::fields::read_code;
use crate::list::mark_list;
use crate::map::mark_map;
use qic_base::Sector;

/// Marks the sectors that the header says are bad.
fn mark_bad(area: &[Sector], words: &mut [u32])
    requires { length area.now ≡ 29 }
    ensures { MarksToo words.old words.new (is_bad_by area.now) }
{
    match read_code(area) {
        2 | 5 => mark_map(area, words),
        3 => mark_list(area, 2048, words),
        _ => mark_list(area, 256, words),
    }
}

/// Turns words of bad sectors into masks of the others.
fn complement(words: &mut [u32])
    ensures { (segment : ℕ) → segment < length words.old →
        slice_index words.new segment + slice_index words.old segment ≡ 2 ^ 32 - 1 }
{
    for word in words.iter_mut() {
        *word = !*word;
    }
}

/// Makes the masks of segments by the data of a header, 29 sectors, from words in which the sectors that the list of bad
/// sectors names are marked: a word for each segment, bit `i` for its sector `i`, as far as the words go.
pub fn make_masks(area: &[Sector], words: &mut [u32])
    requires { length area.now ≡ 29 }
    ensures { (bad : List BadSectors) → IsBadSet bad words.old → AreMasks (Some area.now) bad words.new }
{
    mark_bad(area, words);
    complement(words);
}

/// Makes the masks where there is no header: only what the list of bad sectors names is left out.
pub fn make_masks_without_header(words: &mut [u32])
    ensures { (bad : List BadSectors) → IsBadSet bad words.old → AreMasks None bad words.new }
{
    complement(words);
}
