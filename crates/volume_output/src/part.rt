//! One piece of a volume, by its number.

ghost use Rattle.std.specs.Prelude.{◌≡◌, ◌*◌, ◌^◌, ◌<◌, ◌≤◌, true, length, slice_get, IfOk, IfSome};
ghost use Rattle.std.specs.Option.{option_map};
ghost use Rattle.cartridge_spec.specs.Shape.{mask_at, capacity};
ghost use Rattle.cartridge_spec.specs.Volumes.{carrying};
ghost use Rattle.drive_spec.specs.Terms.{is_referenced};
ghost use Rattle.drive_states.specs.Reach.{reads_in};
ghost use Rattle.host_driver.specs.Calls.{IsReady, Keeps};
ghost use Rattle.host_driver.specs.Fits.{segments_of};
ghost use Rattle.command_spec.specs.Restore.{pieces_of};
ghost use Rattle.volume_output.specs.Part.{PartEnds, piece_at};

use crate::extent::Extent;
use bad_sector_map::BadMap;
use drive_states::Unit;
use host_driver::Host;
use qic_base::{StoreFault, Tape};
use segment_io::{Workspace, read_segment};

/// A piece of a volume that was read: how many bytes of the volume lie in its segment, 1 or more, and how many data
/// sectors the segment has. They stand in the first places of the workspace.
#[derive(Clone, Copy)]
pub struct PartRead {
    pub bytes: u32,
    pub sectors: u32,
}

/// Where a piece of a volume lies: its segment, and how many bytes of the volume that holds.
#[derive(Clone, Copy)]
pub(crate) struct Place {
    pub(crate) segment: u32,
    pub(crate) count: u32,
}

/// The place of the piece with this number, from 0, of a volume's first bytes.
fn find_part(map: &BadMap, volume: Extent, number: u32) -> Option<Place>
    requires { volume.end < length map.now }
    ensures is { option_map piece_at result ≡
        slice_get (pieces_of map.now (carrying map.now volume.start volume.end) volume.bytes)
        number }
    ensures on_tape { IfSome result (λ place. place.segment ≤ volume.end) }
    ensures some { IfSome result (λ place. 0 < place.count) }
    ensures within { IfSome result (λ place. place.count ≤ capacity (mask_at map.now place.segment)) }
    ensures few { IfSome result (λ place. number < 2 ^ 16) }
{
    let mut left = volume.bytes;
    let mut before = number;
    for segment in u32::from(volume.start)..u32::from(volume.end) + 1 {
        let count = left.min(u64::from(map.capacity(segment))) as u32;
        if count > 0 {
            if before == 0 {
                return Some(Place { segment, count });
            }
            before -= 1;
            left -= u64::from(count);
        }
    }
    None
}

/// Reads the piece with this number, from 0, of a volume's first bytes into the workspace. `None` where there is no such
/// piece: then nothing is read. The tape is only read.
pub fn read_part<T: Tape>(
    host: &mut Host,
    unit: &mut Unit<T>,
    map: &BadMap,
    volume: Extent,
    number: u32,
    work: &mut Workspace,
) -> Result<Option<PartRead>, StoreFault>
    requires ready { IsReady T.means host.old unit.old }
    requires mode { reads_in unit.old.drive.deck.mode ≡ true }
    requires referenced { is_referenced unit.old.drive.deck ≡ true }
    requires map { length map.now ≡ 28 * segments_of host.old }
    requires on_tape { volume.end < length map.now }
    ensures ends { PartEnds T.means map.now
        (pieces_of map.now (carrying map.now volume.start volume.end) volume.bytes) number
        unit.old.tape unit.new.tape work.new result }
    ensures few { IfOk result (λ found. IfSome found (λ part. number < 2 ^ 16)) }
    ensures keeps { Keeps T.means host.new unit.old unit.new }
{
    let place = match find_part(map, volume, number) {
        Some(place) => place,
        None => return Ok(None),
    };
    let usable = map.usable(place.segment);
    read_segment(host, unit, place.segment, usable, work)??;
    Ok(Some(PartRead {
        bytes: place.count,
        sectors: map.capacity(place.segment) / 1024,
    }))
}
