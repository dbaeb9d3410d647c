//! A volume written segment by segment.

ghost use Rattle.std.specs.Prelude.{◌≡◌, ◌-◌, ◌*◌, ◌<◌, ◌≤◌, true, length};
ghost use Rattle.qic_base.specs.Alone.{reading};
ghost use Rattle.cartridge_spec.specs.Volumes.{capacity_between, carrying};
ghost use Rattle.drive_spec.specs.Terms.{is_referenced};
ghost use Rattle.host_driver.specs.Calls.{IsReady, MayWrite, Keeps};
ghost use Rattle.host_driver.specs.Fits.{segments_of};
ghost use Rattle.volume_input.specs.Input.{InputEnds};
ghost use Rattle.volume_input.specs.Length.{is_exact};

use crate::length::Wanted;
use crate::segment::write_next;
use crate::written::Written;
use bad_sector_map::BadMap;
use drive_states::Unit;
use host_driver::Host;
use qic_base::{Source, StoreFault, Tape};
use segment_io::Workspace;

/// Writes the bytes of the source, at most as many as are wanted, into the carrying segments from `first` on, each segment
/// once its bytes have come: all its usable sectors, with zero bytes behind the last byte, and their parity. One segment
/// is written for no byte. With `Exact` a source that ends before is a fault, and the segment that it doesn't fill is
/// left.
pub fn take_volume<T: Tape, S: Source>(
    host: &mut Host,
    unit: &mut Unit<T>,
    map: &BadMap,
    first: u32,
    wanted: Wanted,
    work: &mut Workspace,
    source: &mut S,
) -> Result<Written, StoreFault>
    requires ready { IsReady T.means host.old unit.old }
    requires referenced { is_referenced unit.old.drive.deck ≡ true }
    requires writable { MayWrite unit.old.drive.deck }
    requires map { length map.now ≡ 28 * segments_of host.old }
    requires room { 1 ≤ capacity_between map.now first (length map.now - 1) }
    requires within { wanted.most ≤ capacity_between map.now first (length map.now - 1) }
    ensures ends { InputEnds T.means S.means map.now (carrying map.now first (length map.now - 1))
        wanted.most (is_exact wanted.length)
        (reading unit.old.tape source.old) (reading unit.new.tape source.new) result }
    ensures kept { S.means.keeps source.old source.new }
    ensures keeps { Keeps T.means host.new unit.old unit.new }
{
    let mut written = Written {
        bytes: 0,
        start: 0,
        end: 0,
    };
    for segment in first..host.geometry().segments() {
        let capacity = map.capacity(segment);
        if capacity == 0 {
            continue;
        }
        let next = write_next(
            host,
            unit,
            map,
            segment,
            written.bytes,
            wanted,
            work,
            source,
        )?;
        let Some(read) = next else {
            return Ok(written);
        };
        written = written.with(segment, read);
        if read < capacity || written.bytes == wanted.most {
            return Ok(written);
        }
    }
    unreachable!("the segments carry all bytes that are wanted")
}
