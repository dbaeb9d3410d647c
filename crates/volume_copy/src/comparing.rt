//! The lists of two cartridges, compared.

ghost use Rattle.std.specs.Prelude.{◌≡◌, ◌<◌, length};
ghost use Rattle.command_spec.specs.Copying.{difference};
ghost use Rattle.volume_copy.specs.Runs.{ArePaired};

use volume_store::Store;

/// Whether the volumes at an index, from 0, of two lists have the same name, date and length.
fn are_alike(from: &Store, to: &Store, index: u32) -> bool
    requires source { index < length from.now.entries }
    requires target { index < length to.now.entries }
    ensures { ArePaired from.now to.now index result }
{
    let (volume, copy) = (from.entry(index), to.entry(index));
    volume.name.bytes() == copy.name.bytes()
        && volume.date == copy.date
        && from.length(index) == to.length(index)
}

/// The number, from 1, of the first volume of the target that the source has not, or has otherwise.
pub fn first_difference(from: &Store, to: &Store) -> Option<u32>
    ensures { result ≡
        difference from.now.words from.now.entries to.now.words to.now.entries 1 }
{
    for index in 0..to.count() {
        if index >= from.count() || !are_alike(from, to, index) {
            return Some(index + 1);
        }
    }
    None
}
