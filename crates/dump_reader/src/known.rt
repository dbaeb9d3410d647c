//! What is known of a dump.

ghost use Rattle.std.specs.Prelude.{◌≡◌, ◌≤◌, ◌<◌, nat_lt, length, slice_index, if◌then◌else◌};
ghost use Rattle.dump_spec.specs.Pieces.{piece_sectors};
ghost use Rattle.dump_reader.specs.Laid.{sectors_in};

use crate::piece::is_marked;
use dump_spec::Form;
use qic_base::SECTORS;
use segment_salvage::data_sectors;

/// What is known of a dump: its form and length, which of its sectors were rescued, and how its pieces lie, one behind the
/// other in order of segment.
#[derive(Clone, Copy)]
pub struct KnownDump<'a> {
    pub form: Form,
    /// How many bytes it has.
    pub bytes: u64,
    /// The sectors that were rescued, counted from the dump's front: bit `i` of word `w` is that of sector 32 `w` + `i`.
    pub rescued: &'a [u32],
    /// The segment of the first piece.
    pub first: u16,
    /// The segments that the dump lacks, a bit for each.
    pub missing: &'a [u32],
    /// The mask of each segment: bit `i` is 1 where its sector `i` is usable.
    pub masks: &'a [u32],
}

/// How many sectors the piece of a segment with this mask has.
pub(crate) fn piece_sectors(form: Form, mask: u32) -> u8
    ensures sectors { result ≡ piece_sectors form mask }
    ensures few { result ≤ 32 }
{
    match form {
        Form::Sectors => SECTORS,
        Form::Data => data_sectors(mask),
    }
}

impl<'a> KnownDump<'a> {
    /// How many sectors the segment adds to those in front of the next one.
    pub(crate) fn step(&self, segment: u32) -> u8
        requires { segment < length self.now.masks.now }
        ensures sectors { result ≡ (if nat_lt segment self.now.first then 0 else sectors_in self.now segment) }
        ensures few { result ≤ 32 }
    {
        if segment < u32::from(self.first) || is_marked(self.missing, segment) {
            return 0;
        }
        piece_sectors(self.form, self.masks[segment as usize])
    }
}
