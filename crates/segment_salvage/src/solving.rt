//! The code block of cells, of which some are lost.

ghost use Rattle.std.specs.Prelude.{◌≡◌, ◌≤◌, ◌<◌, ◌^◌, length};
ghost use Rattle.silent_locate.specs.Deep.{cells_without};
ghost use Rattle.segment_salvage.specs.Filled.{filled_from};
ghost use Rattle.segment_salvage.specs.Found.{IsFound, IsCounted};

use crate::case::SegmentCase;
use crate::cells::{fill_lost, zero_places};
use crate::reading::SegmentReading;
use qic_base::{LostSet, Sector};
use silent_locate::{LocateFault, Located, locate};

/// Makes 4 to 32 sectors the code block of their cells, where one is found, and else puts zero bytes into the lost ones.
fn find_block(sectors: &mut [Sector], lost: LostSet) -> SegmentReading
    requires least { 4 ≤ length sectors.old }
    requires most { length sectors.old ≤ 32 }
    requires within { lost < 2 ^ length sectors.old }
    ensures { IsFound lost sectors.old result sectors.new }
{
    match locate(sectors, lost) {
        Ok(Located::Agrees) => SegmentReading {
            case: SegmentCase::OneBlock,
            lost,
        },
        Ok(Located::Wrong { place }) => SegmentReading {
            case: SegmentCase::OneWrong { place },
            lost,
        },
        Err(LocateFault::Mismatch) => leave_as_read(sectors, lost, SegmentCase::Contradicts),
        Err(LocateFault::TooMany { .. }) => leave_as_read(sectors, lost, SegmentCase::AsRead),
    }
}

/// The sectors as they stand, with zero bytes in the lost ones.
fn leave_as_read(sectors: &mut [Sector], lost: LostSet, case: SegmentCase) -> SegmentReading
    requires { length sectors.old ≤ 32 }
    ensures reading { result ≡ record { case = case; lost = lost } }
    ensures filled { sectors.new ≡ filled_from lost 0 sectors.old }
{
    fill_lost(sectors, lost);
    SegmentReading { case, lost }
}

/// As `find_block`. Where sectors of zero bytes may be lost ones and no block is found, it is looked for once more without
/// them.
pub(crate) fn find_counted(sectors: &mut [Sector], lost: LostSet, zero_lost: bool) -> SegmentReading
    requires least { 4 ≤ length sectors.old }
    requires most { length sectors.old ≤ 32 }
    requires within { lost < 2 ^ length sectors.old }
    ensures { IsCounted zero_lost (cells_without lost sectors.old) result sectors.new }
{
    let reading = find_block(sectors, lost);
    if !zero_lost || reading.case.has_block() {
        return reading;
    }
    let zero = zero_places(sectors);
    find_block(sectors, zero)
}
