//! One segment looked at.

ghost use Rattle.std.specs.Prelude.{◌≡◌, ◌↔◌, ◌<◌, ◌^◌, ℕ, [], ◌∷◌};
ghost use Rattle.qic_base.specs.Alone.{around};
ghost use Rattle.cartridge_spec.specs.Says.{whole_mask};
ghost use Rattle.host_driver.specs.Calls.{Keeps};
ghost use Rattle.command_spec.specs.Scrub.{IsSearched};
ghost use Rattle.segment_io.specs.Calls.{CanWrite};
ghost use Rattle.segment_mending.specs.Locating.{IsDeep};
ghost use Rattle.segment_mending.specs.Looking.{HasFew, Looks};
ghost use Rattle.segment_mending.specs.Mending.{reported};

use crate::lines::unread_text;
use crate::locating::{Found, find_in_segment};
use crate::mending::{mend, pass_over};
use crate::progress::Progress;
use command_spec::Depth;
use drive_states::Unit;
use host_driver::Host;
use qic_base::{Sink, StoreFault, Tape};
use segment_io::Workspace;
use volume_table::TABLE_SEGMENT;

/// The form in which a segment is read: no wrong sector is looked for in that of the volume table.
fn form_of(depth: Depth, segment: u32) -> Depth
    ensures { (usable : ℕ) → IsDeep result ↔
        IsSearched depth (record { segment = segment; mask = usable }) }
{
    match depth {
        Depth::Deep if segment != TABLE_SEGMENT => Depth::Deep,
        _ => Depth::Shallow,
    }
}

/// Looks at a segment; a header copy has no bad sector.
pub(crate) fn look_at<T: Tape, K: Sink>(
    host: &mut Host,
    unit: &mut Unit<T>,
    segment: u32,
    usable: u32,
    work: &mut Workspace,
    sink: &mut K,
    progress: &mut Progress,
) -> Result<(), StoreFault>
    requires can { CanWrite T.means host.old unit.old segment usable }
    requires whole { segment < 2 → usable ≡ whole_mask }
    requires few { HasFew (2 ^ 26) (reported progress.old.report) }
    ensures looks { Looks T.means K.means (record { segment = segment; mask = usable } ∷ [])
        (around unit.old.tape sink.old) (around unit.new.tape sink.new)
        progress.old progress.new result }
    ensures keeps { Keeps T.means host.new unit.old unit.new }
{
    let form = form_of(progress.depth, segment);
    match find_in_segment(host, unit, form, segment, usable, work)? {
        Found::Reads { places, wrong } => {
            progress.report.count_mended(places.count());
            mend(host, unit, segment, usable, places, wrong, work, sink)
        }
        Found::Fails(why) => {
            pass_over(&unread_text(segment, why), sink, &mut progress.report)?;
            Ok(())
        }
    }
}
