//! What a check says of a segment.

ghost use Rattle.std.specs.Prelude.{◌≡◌, length};
ghost use Rattle.dump_spec.specs.Check.{Finds};
ghost use Rattle.segment_salvage.specs.Buffer.{buffer_cells};
ghost use Rattle.segment_salvage.specs.Finding.{IsPlaced, finding_of, told};

use crate::case::SegmentCase;
use crate::gathering::salvage;
use crate::reading::SegmentReading;
use bad_sector_map::index_at;
use dump_spec::Form;
use qic_base::{LostSet, Sector};

/// What a check finds of a segment; sectors are counted with the parity, but in the form of data.
#[derive(Clone, Copy, Drop)]
pub enum Finding {
    Well,
    /// It reads, and so many sectors are lost, 1 to 3.
    Weak { lost: u8 },
    /// It reads without the sector with this index, 0 to 31, which is wrong.
    Wrong { index: u8 },
    /// No code block is found for it.
    Mismatch,
    /// So many sectors are lost, and it does not read.
    Lost { lost: u8 },
}

impl SegmentReading {
    /// What a check finds, by the usable sectors of the segment.
    fn finding(&self, usable: u32) -> Finding
        requires { IsPlaced usable self.now.case }
        ensures { told result ≡ finding_of usable self.now }
    {
        let lost = self.lost.count();
        match self.case {
            SegmentCase::OneBlock if lost == 0 => Finding::Well,
            SegmentCase::OneBlock => Finding::Weak { lost },
            SegmentCase::OneWrong { place } => Finding::Wrong {
                index: index_at(usable, place),
            },
            SegmentCase::Contradicts => Finding::Mismatch,
            SegmentCase::AsRead if lost == 0 => Finding::Well,
            SegmentCase::AsRead => Finding::Lost { lost },
        }
    }
}

/// What a check finds of a segment, of whose 32 sectors those in `unread` can't be read: bit `i` of `usable` stands for
/// sector `i`. In the form of data the data sectors stand at the front. The sectors are changed as by `read_segment`.
pub fn check_segment(
    form: Form,
    zero_lost: bool,
    sectors: &mut [Sector],
    usable: u32,
    unread: LostSet,
) -> Finding
    requires { length sectors.old ≡ 32 }
    ensures { Finds form zero_lost usable (buffer_cells form usable unread sectors.old) (told result) }
{
    salvage(form, zero_lost, sectors, usable, unread).finding(usable)
}
