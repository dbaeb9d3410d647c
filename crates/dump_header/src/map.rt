//! The bad sector map of a header.

ghost use Rattle.std.specs.Prelude.{◌≡◌, length};
ghost use Rattle.dump_spec.specs.Header.{is_mapped_bad};
ghost use Rattle.dump_header.specs.Marking.{MarksToo};

use bad_sector_map::{MAPPED, word_at};
use qic_base::Sector;

/// Marks what the words of the map mark.
pub fn mark_map(area: &[Sector], words: &mut [u32])
    requires { length area.now ≡ 29 }
    ensures { MarksToo words.old words.new (is_mapped_bad area.now) }
{
    for segment in 0..words.len().min(MAPPED) {
        words[segment] |= word_at(area, segment);
    }
}
