//! The way to a segment.

ghost use Rattle.std.specs.Prelude.{◌≡◌, ◌<◌, ◌*◌, true, false};
ghost use Rattle.tape_geometry.specs.Geometry.{logical_offset};
ghost use Rattle.qic117_commands.specs.Views.{is_format};
ghost use Rattle.drive_spec.specs.Deck.{segments_per_track, is_stopped, is_streaming};
ghost use Rattle.drive_spec.specs.Terms.{is_referenced, sought, skipped};
ghost use Rattle.drive_states.specs.Reach.{segment_of};
ghost use Rattle.drive_states.specs.Typed.{skip_command};
ghost use Rattle.host_driver.specs.Calls.{IsReady, Keeps};
ghost use Rattle.host_driver.specs.Fits.{deck_of};
ghost use Rattle.host_driver.specs.Place.{StreamsAt, streams_before, StandsAt, KeepsMode, RunsOn, idled_deck};
ghost use Rattle.host_driver.specs.Train.{ready_deck};

use crate::host::Host;
use drive_states::Unit;
use drive_states::deck::is_streaming;
use qic_base::Tape;
use qic117_commands::{Command, Mode};

impl Host {
    /// Has the tape stream at a segment, before its sector 0, from wherever it stands or streams; one that streams at the
    /// segment before it on its track runs on. The cartridge has its reference bursts, and in Format mode the segment is
    /// the first of its track.
    pub fn go_to<T: Tape>(&mut self, unit: &mut Unit<T>, segment: u32)
        requires ready { IsReady T.means self.old unit.old }
        requires on_tape { segment < 28 * segments_per_track unit.old.drive.deck }
        requires referenced { is_referenced unit.old.drive.deck ≡ true }
        requires first { is_format unit.old.drive.deck.mode ≡ true →
            logical_offset (segments_per_track unit.old.drive.deck) segment ≡ 0 }
        ensures place { StreamsAt segment 0 unit.new.drive.deck }
        ensures tape { unit.new.tape ≡ unit.old.tape }
        ensures keeps { Keeps T.means self.new unit.old unit.new }
    {
        let track = self.geometry.track_of(segment);
        let offset = self.geometry.logical_offset(segment);
        if self.streams_before(track, offset) {
            self.next_segment(unit);
            return;
        }
        self.stand(unit);
        self.align_track(unit, track);
        self.align_offset(unit, offset);
        self.forward(unit);
    }

    /// Whether the tape streams at the segment before the one with this offset, on this track.
    fn streams_before(&self, track: u8, offset: u16) -> bool
        ensures { result ≡ streams_before track offset (deck_of self.now) }
    {
        is_streaming(&self.deck)
            && self.deck.track == track
            && offset > 0
            && self.deck.offset == offset - 1
    }

    /// Has the tape that streams run on to the next segment of its track, or behind the last; one that stands stays.
    pub fn next_segment<T: Tape>(&mut self, unit: &mut Unit<T>)
        requires ready { IsReady T.means self.old unit.old }
        ensures deck { unit.new.drive.deck ≡ idled_deck unit.old.drive.deck }
        ensures next { is_streaming unit.old.drive.deck.motion ≡ true →
            RunsOn unit.old.drive.deck unit.new.drive.deck }
        ensures tape { unit.new.tape ≡ unit.old.tape }
        ensures keeps { Keeps T.means self.new unit.old unit.new }
    {
        self.tell(unit, 0);
    }

    /// Stops the tape; the segment in which it streamed comes next.
    pub fn halt<T: Tape>(&mut self, unit: &mut Unit<T>)
        requires ready { IsReady T.means self.old unit.old }
        ensures deck { unit.new.drive.deck ≡ ready_deck unit.old.drive.deck }
        ensures tape { unit.new.tape ≡ unit.old.tape }
        ensures keeps { Keeps T.means self.new unit.old unit.new }
    {
        self.command(unit, Command::StopTape);
    }

    /// Stops the tape where it streams.
    fn stand<T: Tape>(&mut self, unit: &mut Unit<T>)
        requires ready { IsReady T.means self.old unit.old }
        ensures deck { unit.new.drive.deck ≡ ready_deck unit.old.drive.deck }
        ensures tape { unit.new.tape ≡ unit.old.tape }
        ensures ready { IsReady T.means self.new unit.new }
    {
        if !is_streaming(&self.deck) {
            return;
        }
        self.command(unit, Command::StopTape);
    }

    /// Has the head go to a track, where it isn't there.
    fn align_track<T: Tape>(&mut self, unit: &mut Unit<T>, track: u8)
        requires ready { IsReady T.means self.old unit.old }
        requires stopped { is_stopped unit.old.drive.deck.motion ≡ true }
        requires referenced { is_referenced unit.old.drive.deck ≡ true }
        requires track { track < 28 }
        ensures place { StandsAt track (sought track unit.old.drive.deck).offset
            unit.new.drive.deck }
        ensures same { KeepsMode unit.old.drive.deck unit.new.drive.deck }
        ensures tape { unit.new.tape ≡ unit.old.tape }
        ensures ready { IsReady T.means self.new unit.new }
    {
        if self.deck.track == track {
            return;
        }
        self.seek_track(unit, track);
    }

    /// Has the tape skip to an offset on its track, where it doesn't stand there. Format mode has no skips: there the
    /// drive does it in Primary mode.
    fn align_offset<T: Tape>(&mut self, unit: &mut Unit<T>, offset: u16)
        requires ready { IsReady T.means self.old unit.old }
        requires stopped { is_stopped unit.old.drive.deck.motion ≡ true }
        requires referenced { is_referenced unit.old.drive.deck ≡ true }
        requires within { offset < segments_per_track unit.old.drive.deck }
        ensures place { StandsAt unit.old.drive.deck.track offset unit.new.drive.deck }
        ensures same { KeepsMode unit.old.drive.deck unit.new.drive.deck }
        ensures tape { unit.new.tape ≡ unit.old.tape }
        ensures ready { IsReady T.means self.new unit.new }
    {
        if self.deck.offset == offset {
            return;
        }
        if self.deck.mode != Mode::Format {
            self.skip_to(unit, offset);
            return;
        }
        self.enter_at_once(unit, Mode::Primary);
        self.skip_to(unit, offset);
        self.enter_at_once(unit, Mode::Format);
    }

    /// Has the tape skip to an offset on its track.
    fn skip_to<T: Tape>(&mut self, unit: &mut Unit<T>, offset: u16)
        requires ready { IsReady T.means self.old unit.old }
        requires stopped { is_stopped unit.old.drive.deck.motion ≡ true }
        requires referenced { is_referenced unit.old.drive.deck ≡ true }
        requires skips { is_format unit.old.drive.deck.mode ≡ false }
        requires within { offset < segments_per_track unit.old.drive.deck }
        ensures place { StandsAt unit.old.drive.deck.track offset unit.new.drive.deck }
        ensures same { KeepsMode unit.old.drive.deck unit.new.drive.deck }
        ensures tape { unit.new.tape ≡ unit.old.tape }
        ensures ready { IsReady T.means self.new unit.new }
    {
        let here = self.deck.offset;
        if here < offset {
            self.skip(unit, true, (offset - here) as u8);
        } else {
            self.skip(unit, false, (here - offset) as u8);
        }
    }

    /// Has the tape skip so many segments of its track.
    fn skip<T: Tape>(&mut self, unit: &mut Unit<T>, forward: bool, count: u8)
        requires ready { IsReady T.means self.old unit.old }
        requires stopped { is_stopped unit.old.drive.deck.motion ≡ true }
        requires referenced { is_referenced unit.old.drive.deck ≡ true }
        requires skips { is_format unit.old.drive.deck.mode ≡ false }
        ensures deck { unit.new.drive.deck
            ≡ ready_deck (skipped forward count unit.old.drive.deck) }
        ensures tape { unit.new.tape ≡ unit.old.tape }
        ensures ready { IsReady T.means self.new unit.new }
    {
        self.command(unit, skip_command(forward));
        self.give(unit, count % 16);
        self.give(unit, count / 16);
        self.wait(unit);
    }

    /// Has the head go to a track.
    fn seek_track<T: Tape>(&mut self, unit: &mut Unit<T>, track: u8)
        requires ready { IsReady T.means self.old unit.old }
        requires stopped { is_stopped unit.old.drive.deck.motion ≡ true }
        requires referenced { is_referenced unit.old.drive.deck ≡ true }
        requires track { track < 28 }
        ensures deck { unit.new.drive.deck ≡ ready_deck (sought track unit.old.drive.deck) }
        ensures tape { unit.new.tape ≡ unit.old.tape }
        ensures ready { IsReady T.means self.new unit.new }
    {
        self.command(unit, Command::SeekTrack);
        self.give(unit, track);
        self.wait(unit);
    }

    /// Has the tape stream from before a segment of its track.
    fn forward<T: Tape>(&mut self, unit: &mut Unit<T>)
        requires ready { IsReady T.means self.old unit.old }
        requires stopped { is_stopped unit.old.drive.deck.motion ≡ true }
        requires referenced { is_referenced unit.old.drive.deck ≡ true }
        requires within { unit.old.drive.deck.offset < segments_per_track unit.old.drive.deck }
        requires first { is_format unit.old.drive.deck.mode ≡ true →
            unit.old.drive.deck.offset ≡ 0 }
        ensures place { StreamsAt (segment_of unit.old.drive.deck) 0 unit.new.drive.deck }
        ensures same { KeepsMode unit.old.drive.deck unit.new.drive.deck }
        ensures tape { unit.new.tape ≡ unit.old.tape }
        ensures ready { IsReady T.means self.new unit.new }
    {
        self.command(unit, Command::LogicalForward);
    }
}

fn skip_command(forward: bool) -> Command
    ensures { result ≡ skip_command forward }
{
    if forward {
        Command::SkipForward
    } else {
        Command::SkipReverse
    }
}
