//! The reference bursts, and all segments formatted.

ghost use Rattle.std.specs.Prelude.{◌≡◌, ◌↔◌, ◌<◌, true, OnOk};
ghost use Rattle.qic_base.specs.TapeCalls.{Does};
ghost use Rattle.qic117_commands.specs.Views.{is_format};
ghost use Rattle.drive_spec.specs.Deck.{segments_per_track, is_stopped};
ghost use Rattle.drive_spec.specs.Terms.{is_protected};
ghost use Rattle.host_driver.specs.Calls.{IsReady, Keeps};
ghost use Rattle.formatter.specs.Calls.{CanGo, IsCleared, Leaves};
ghost use Rattle.formatter.specs.Formats.{Clears};
ghost use Rattle.formatter.specs.Steps.{track_formats};

use crate::fault::FormatFault;
use crate::track::go_to_track;
use drive_states::Unit;
use host_driver::Host;
use qic_base::{TRACKS, Tape, TapeFailed};
use qic117_commands::Mode;

/// Writes the reference bursts, and zero bytes into each sector of the cartridge.
pub(crate) fn clear<T: Tape>(host: &mut Host, unit: &mut Unit<T>) -> Result<(), FormatFault>
    requires ready { IsReady T.means host.old unit.old }
    ensures protected { (result ≡ Err FormatFault.Protected)
        ↔ (is_protected unit.old.drive.deck ≡ true) }
    ensures did { Clears T.means (segments_per_track unit.old.drive.deck)
        unit.old.tape unit.new.tape result }
    ensures ends { OnOk result (IsCleared unit.old.drive.deck unit.new.drive.deck) }
    ensures leaves { Leaves T.means host.new unit.old unit.new result }
{
    host.halt(unit);
    if host.enter(unit, Mode::Format).is_err() {
        return Err(FormatFault::Protected);
    }
    host.reference(unit)?;
    for track in 0..TRACKS {
        clear_track(host, unit, track)?;
    }
    Ok(())
}

/// Formats the segments of a track, ascending.
fn clear_track<T: Tape>(host: &mut Host, unit: &mut Unit<T>, track: u32) -> Result<(), TapeFailed>
    requires ready { CanGo T.means host.old unit.old }
    requires format { is_format unit.old.drive.deck.mode ≡ true }
    requires track { track < 28 }
    ensures did { Does T.means unit.old.tape unit.new.tape
        (track_formats (segments_per_track unit.old.drive.deck) track) result }
    ensures stopped { OnOk result (is_stopped unit.new.drive.deck.motion ≡ true) }
    ensures keeps { Keeps T.means host.new unit.old unit.new }
{
    let count = go_to_track(host, unit, track);
    for _ in 0..count {
        host.format_here(unit)?;
    }
    Ok(())
}
