//! A volume read segment by segment.

ghost use Rattle.std.specs.Prelude.{◌≡◌, ◌*◌, ◌<◌, ◌≤◌, true, length};
ghost use Rattle.qic_base.specs.Alone.{around};
ghost use Rattle.cartridge_spec.specs.Volumes.{capacity_between, carrying};
ghost use Rattle.drive_spec.specs.Terms.{is_referenced};
ghost use Rattle.drive_states.specs.Reach.{reads_in};
ghost use Rattle.host_driver.specs.Calls.{IsReady, Keeps};
ghost use Rattle.host_driver.specs.Fits.{segments_of};
ghost use Rattle.command_spec.specs.Restore.{pieces_of};
ghost use Rattle.volume_output.specs.Form.{is_lined};
ghost use Rattle.volume_output.specs.Output.{OutputEnds};

use crate::extent::Extent;
use crate::form::Form;
use crate::part::Place;
use crate::piece::write_piece;
use bad_sector_map::BadMap;
use drive_states::Unit;
use host_driver::Host;
use qic_base::{Sink, StoreFault, Tape};
use segment_io::Workspace;

/// Reads a volume's first bytes, as many as are asked for, segment by segment, and hands each segment's bytes to the sink
/// in this form, once the whole segment agrees. A segment that holds none of these bytes is not read. The first one that
/// doesn't read ends it. The tape is only read.
pub fn give_volume<T: Tape, K: Sink>(
    host: &mut Host,
    unit: &mut Unit<T>,
    map: &BadMap,
    volume: Extent,
    form: Form,
    work: &mut Workspace,
    sink: &mut K,
) -> Result<(), StoreFault>
    requires ready { IsReady T.means host.old unit.old }
    requires mode { reads_in unit.old.drive.deck.mode ≡ true }
    requires referenced { is_referenced unit.old.drive.deck ≡ true }
    requires map { length map.now ≡ 28 * segments_of host.old }
    requires on_tape { volume.end < length map.now }
    requires within { volume.bytes ≤ capacity_between map.now volume.start volume.end }
    ensures ends { OutputEnds T.means K.means map.now
        (pieces_of map.now (carrying map.now volume.start volume.end) volume.bytes) (is_lined form)
        (around unit.old.tape sink.old) (around unit.new.tape sink.new) result }
    ensures keeps { Keeps T.means host.new unit.old unit.new }
{
    let mut left = volume.bytes;
    for segment in u32::from(volume.start)..u32::from(volume.end) + 1 {
        let usable = map.usable(segment);
        let count = left.min(u64::from(map.capacity(segment))) as u32;
        if count > 0 {
            write_piece(
                host,
                unit,
                Place { segment, count },
                usable,
                form,
                work,
                sink,
            )?;
            left -= u64::from(count);
        }
    }
    Ok(())
}
