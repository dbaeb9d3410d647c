//! The formatting of a cartridge.

ghost use Rattle.std.specs.Prelude.{◌≡◌, ◌↔◌, true, length};
ghost use Rattle.drive_spec.specs.Deck.{segments_per_track};
ghost use Rattle.drive_spec.specs.Terms.{is_protected};
ghost use Rattle.host_driver.specs.Calls.{IsReady};
ghost use Rattle.formatter.specs.Calls.{Leaves};
ghost use Rattle.formatter.specs.Formats.{Formats};

use crate::clearing::clear;
use crate::fault::FormatFault;
use crate::header::write_header;
use crate::marking::{first_marked, mark_all};
use bad_sector_map::BadMap;
use drive_states::Unit;
use host_driver::Host;
use qic_base::{Name, Tape};
use segment_io::Workspace;

/// What a formatting found.
#[derive(Clone, Copy)]
pub struct FormatReport {
    /// The segments of the cartridge.
    pub segments: u32,
    /// Its bad sectors.
    pub bad: u32,
}

/// Makes the cartridge an empty one with this label and this date word, and the map that of its defects. What was on it
/// is lost; a tape that fails leaves a front of the steps done.
pub fn format<T: Tape>(
    host: &mut Host,
    unit: &mut Unit<T>,
    work: &mut Workspace,
    map: &mut BadMap,
    label: &Name,
    date: u32,
) -> Result<FormatReport, FormatFault>
    requires ready { IsReady T.means host.old unit.old }
    ensures protected { (result ≡ Err FormatFault.Protected)
        ↔ (is_protected unit.old.drive.deck ≡ true) }
    ensures did { Formats T.means (segments_per_track unit.old.drive.deck) label.now date
        unit.old.tape unit.new.tape map.new result }
    ensures leaves { Leaves T.means host.new unit.old unit.new result }
    ensures room { length work.new ≡ 32 }
{
    let sectors = work.sectors_mut();
    clear(host, unit)?;
    mark_all(host, unit, map, sectors)?;
    if let Some(segment) = first_marked(map) {
        return Err(FormatFault::DefectInFront { segment });
    }
    write_header(host, unit, work, map, label, date)?;
    Ok(FormatReport {
        segments: host.geometry().segments(),
        bad: map.marked(),
    })
}
