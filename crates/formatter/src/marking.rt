//! The pass over a formatted tape, which marks the sectors that can't be read.

ghost use Rattle.std.specs.Prelude.{◌≡◌, ◌<◌, ◌≤◌, ◌+◌, ◌*◌, [], true, length, OnOk, MatchOption};
ghost use Rattle.qic_base.specs.Cartridge.{Cartridge, view_at};
ghost use Rattle.qic_base.specs.TapeCalls.{Does, Tells};
ghost use Rattle.drive_spec.specs.Deck.{segments_per_track, is_stopped};
ghost use Rattle.drive_states.specs.Reach.{reads_in};
ghost use Rattle.host_driver.specs.Calls.{Keeps};
ghost use Rattle.formatter.specs.Calls.{CanGo, IsAtStop, KeepsCartridge};
ghost use Rattle.formatter.specs.Marking.{AreReadable, MarksBelow, MarksUnreadable, IsFirstMarked, HasNoMarkInFront};

use crate::track::go_to_track;
use bad_sector_map::BadMap;
use drive_states::Unit;
use host_driver::Host;
use qic_base::{LostSet, SECTORS, Sector, TRACKS, Tape, TapeFailed, WHOLE};
use qic117_commands::Mode;

/// The segments of the header copies and of the volume table.
const FRONT: u32 = 3;

/// Reads all sectors of all segments, ascending, in Verify mode, and makes the map that marks those that can't be read.
/// The sectors of a segment are read by one call, into `sectors`, of which there are 32.
pub(crate) fn mark_all<T: Tape>(
    host: &mut Host,
    unit: &mut Unit<T>,
    map: &mut BadMap,
    sectors: &mut [Sector],
) -> Result<(), TapeFailed>
    requires stands { IsAtStop T.means host.old unit.old }
    requires room { length sectors.old ≡ 32 }
    ensures did { Does T.means unit.old.tape unit.new.tape [] result }
    ensures marks { OnOk result (Tells T.means unit.old.tape (λ c. MarksUnreadable c map.new)) }
    ensures words { length map.new ≡ 28 * segments_per_track unit.old.drive.deck }
    ensures stopped { OnOk result (is_stopped unit.new.drive.deck.motion ≡ true) }
    ensures keeps { KeepsCartridge T.means host.new unit.old unit.new }
{
    let Some(entries) = sectors.as_mut_array() else {
        unreachable!("there are 32 sectors")
    };
    map.reset(host.geometry().segments());
    host.enter(unit, Mode::Verify).unwrap();
    for track in 0..TRACKS {
        mark_track(host, unit, track, map, entries)?;
    }
    Ok(())
}

/// Reads the segments of a track, ascending, and marks their unreadable sectors.
fn mark_track<T: Tape>(
    host: &mut Host,
    unit: &mut Unit<T>,
    track: u32,
    map: &mut BadMap,
    sectors: &mut [Sector; 32],
) -> Result<(), TapeFailed>
    requires ready { CanGo T.means host.old unit.old }
    requires mode { reads_in unit.old.drive.deck.mode ≡ true }
    requires track { track < 28 }
    requires words { length map.old ≡ 28 * segments_per_track unit.old.drive.deck }
    ensures did { Does T.means unit.old.tape unit.new.tape [] result }
    ensures marks { let n = segments_per_track unit.old.drive.deck in
        OnOk result (Tells T.means unit.old.tape (λ c. MarksBelow c map.old (32 * (track * n)) →
        MarksBelow c map.new (32 * ((track + 1) * n)))) }
    ensures words { length map.new ≡ length map.old }
    ensures stopped { OnOk result (is_stopped unit.new.drive.deck.motion ≡ true) }
    ensures keeps { Keeps T.means host.new unit.old unit.new }
{
    let count = go_to_track(host, unit, track);
    let first = track * count;
    for offset in 0..count {
        let segment = first + offset;
        let read = host.read_sectors(unit, segment, LostSet::from_mask(WHOLE), sectors)?;
        mark_others(map, segment, read.good);
        host.next_segment(unit);
    }
    Ok(())
}

/// Marks the sectors of a segment that are not good.
fn mark_others(map: &mut BadMap, segment: u32, good: LostSet)
    requires { segment < length map.old }
    ensures marks { (c : Cartridge) → AreReadable good (view_at c segment) →
        MarksBelow c map.old (32 * segment) → MarksBelow c map.new (32 * (segment + 1)) }
    ensures words { length map.new ≡ length map.old }
{
    for index in 0..SECTORS {
        if !good.contains(index) {
            map.mark(segment, index);
        }
    }
}

/// The first of the segments 0 to 2, those of the header copies and of the volume table, that has a marked sector.
pub(crate) fn first_marked(map: &BadMap) -> Option<u32>
    requires { 3 ≤ length map.now }
    ensures { MatchOption result (HasNoMarkInFront map.now) (IsFirstMarked map.now) }
{
    for segment in 0..FRONT {
        if map.usable(segment) != WHOLE {
            return Some(segment);
        }
    }
    None
}
