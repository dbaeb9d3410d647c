//! The way to the first segment of a track.

ghost use Rattle.std.specs.Prelude.{◌≡◌, ◌<◌, ◌*◌};
ghost use Rattle.drive_spec.specs.Deck.{segments_per_track};
ghost use Rattle.host_driver.specs.Calls.{Keeps};
ghost use Rattle.host_driver.specs.Place.{StreamsAt};
ghost use Rattle.formatter.specs.Calls.{CanGo};

use drive_states::Unit;
use host_driver::Host;
use qic_base::Tape;

/// Has the tape stream at the first segment of a track, and gives how many segments a track has.
pub(crate) fn go_to_track<T: Tape>(host: &mut Host, unit: &mut Unit<T>, track: u32) -> u32
    requires ready { CanGo T.means host.old unit.old }
    requires track { track < 28 }
    ensures count { result ≡ segments_per_track unit.old.drive.deck }
    ensures place { StreamsAt (track * result) 0 unit.new.drive.deck }
    ensures tape { unit.new.tape ≡ unit.old.tape }
    ensures keeps { Keeps T.means host.new unit.old unit.new }
{
    let count = u32::from(host.geometry().segments_per_track());
    host.go_to(unit, track * count);
    count
}
