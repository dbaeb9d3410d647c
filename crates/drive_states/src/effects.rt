//! What commands and gaps do to a deck (this project's profile of QIC-117).

ghost use Rattle.std.specs.Prelude.{◌≡◌, ◌<◌, false, IfSome};
ghost use Rattle.drive_spec.specs.Terms.{streaming, home, entering, referenced, sought, skipped, referenced_as, run_on};
ghost use Rattle.drive_spec.specs.Effects.{accepted, given, reset, ticked, error_word};
ghost use Rattle.drive_states.specs.Sound.{IsParameter, IsSound};
ghost use Rattle.drive_states.specs.Reach.{passed, last_passed, passed_all};
ghost use Rattle.drive_states.specs.Unreferenced.{unreferenced};

use crate::deck::{ends_early, is_stopped, limit, segments_per_track};
use drive_spec::{Deck, Motion};
use qic_base::{LostSet, TapeInfo};
use qic117_commands::{Command, ErrorCode, Mode};

/// The gaps that a seek takes: to the start of track 0, to a track, and of a skip.
const GAPS_TO_START: u8 = 160;

const GAPS_TO_TRACK: u8 = 10;

const GAPS_OF_SKIP: u8 = 80;

/// The error word of a code and a command's number: the code in the low byte, the number in the high byte.
pub(crate) fn error_word(code: ErrorCode, command: u8) -> u16
    ensures { result ≡ error_word code command }
{
    u16::from(code.number()) + 256 * u16::from(command)
}

/// The tape begins to stream, where it stands before a segment of its track.
fn streaming(deck: Deck) -> Deck
    ensures { result ≡ streaming deck }
{
    if is_stopped(&deck) && deck.offset < limit(&deck) {
        Deck {
            motion: Motion::Streaming { next: 0 },
            at_load_point: false,
            ..deck
        }
    } else {
        deck
    }
}

/// The drive seeks the start of track 0.
fn home(deck: Deck, at_load_point: bool) -> Deck
    ensures { result ≡ home at_load_point deck }
{
    Deck {
        track: 0,
        offset: 0,
        motion: Motion::Seeking {
            left: GAPS_TO_START,
        },
        at_load_point,
        ..deck
    }
}

/// The drive enters a mode, and keeps track and offset.
fn entering(deck: Deck, mode: Mode, at_load_point: bool) -> Deck
    ensures { result ≡ entering mode at_load_point deck }
{
    Deck {
        mode,
        at_load_point,
        ..deck
    }
}

/// The cartridge has its reference bursts, or has not.
fn referenced_as(deck: Deck, on: bool) -> Deck
    ensures { result ≡ referenced on deck }
{
    let cartridge = match deck.cartridge {
        Some(info) => Some(TapeInfo {
            referenced: on,
            ..info
        }),
        None => None,
    };
    Deck { cartridge, ..deck }
}

/// The deck after a command that no row refuses. One that takes a parameter does its work when it has it.
pub fn accepted(deck: Deck, command: Command) -> Deck
    ensures { result ≡ accepted command deck }
{
    let primary = deck.mode == Mode::Primary;
    match command {
        Command::ReportError => Deck {
            error: 0,
            fresh: false,
            ..deck
        },
        Command::LogicalForward => streaming(deck),
        Command::SeekLoadPoint => home(deck, primary),
        Command::EnterFormat => Deck {
            format_segments: segments_per_track(&deck),
            ..entering(deck, Mode::Format, false)
        },
        Command::WriteReference => home(referenced_as(deck, true), deck.at_load_point),
        Command::EnterVerify => entering(deck, Mode::Verify, false),
        Command::StopTape => Deck {
            motion: Motion::Stopped,
            ..deck
        },
        Command::EnterPrimary => entering(deck, Mode::Primary, primary && deck.at_load_point),
        _ => deck,
    }
}

/// The drive knows of no reference bursts.
pub fn unreferenced(deck: Deck) -> Deck
    ensures { result ≡ unreferenced deck }
{
    referenced_as(deck, false)
}

/// The head goes to a track.
fn sought(deck: Deck, track: u8) -> Deck
    ensures { result ≡ sought track deck }
{
    let offset = if track % 2 == deck.track % 2 {
        deck.offset
    } else {
        segments_per_track(&deck).saturating_sub(deck.offset)
    };
    Deck {
        track,
        offset,
        motion: Motion::Seeking {
            left: GAPS_TO_TRACK,
        },
        at_load_point: false,
        ..deck
    }
}

/// The tape skips so many segments of its track, at most to an end of it.
fn skipped(deck: Deck, forward: bool, count: u16) -> Deck
    ensures { result ≡ skipped forward count deck }
{
    let offset = if forward {
        deck.offset
            .saturating_add(count)
            .min(segments_per_track(&deck))
    } else {
        deck.offset.saturating_sub(count)
    };
    Deck {
        offset,
        motion: Motion::Seeking { left: GAPS_OF_SKIP },
        at_load_point: false,
        ..deck
    }
}

/// The deck after a command that has its parameter.
pub fn given(deck: Deck, command: Command, parameter: u16) -> Deck
    requires { IsParameter command parameter }
    ensures { result ≡ given command parameter deck }
{
    match command {
        Command::SeekTrack => sought(deck, parameter as u8),
        Command::SkipReverse => skipped(deck, false, parameter),
        Command::SkipForward => skipped(deck, true, parameter),
        Command::SetFormatSegments => Deck {
            format_segments: parameter,
            ..deck
        },
        _ => deck,
    }
}

/// The deck after a reset: a seek that is broken off leaves its target's offset.
pub(crate) fn reset(deck: Deck) -> Deck
    ensures { result ≡ reset deck }
{
    Deck {
        motion: Motion::Stopped,
        error: error_word(ErrorCode::SoftwareReset, Command::Reset.number()),
        ..entering(
            deck,
            Mode::Primary,
            deck.mode == Mode::Primary && deck.at_load_point,
        )
    }
}

/// The deck after a gap of its seek, where it seeks.
pub fn ticked(deck: Deck) -> Deck
    ensures { result ≡ ticked deck }
{
    let motion = match deck.motion {
        Motion::Seeking { left } if left <= 1 => Motion::Stopped,
        Motion::Seeking { left } => Motion::Seeking { left: left - 1 },
        motion => motion,
    };
    Deck { motion, ..deck }
}

/// The deck, whose tape streams, a segment further: the tape stops at the limit.
pub fn run_on(deck: Deck) -> Deck
    requires { IsSound deck }
    ensures { result ≡ run_on deck }
{
    let offset = deck.offset + 1;
    let motion = if offset < limit(&deck) {
        Motion::Streaming { next: 0 }
    } else {
        Motion::Stopped
    };
    let error = if ends_early(&deck) {
        error_word(ErrorCode::LogicalEot, Command::LogicalForward.number())
    } else {
        deck.error
    };
    Deck {
        offset,
        motion,
        error,
        ..deck
    }
}

/// The deck once the head has passed a sector, 0 to 31, of the segment under it.
pub fn passed(deck: Deck, index: u8) -> Deck
    requires { index < 32 }
    ensures { result ≡ passed deck index }
{
    Deck {
        motion: Motion::Streaming { next: index + 1 },
        ..deck
    }
}

/// The last of the asked sectors of a segment that isn't blank.
fn last_passed(asked: LostSet, blank: LostSet) -> Option<u8>
    ensures last { result ≡ last_passed asked blank 32 }
    ensures within { IfSome result (λ index. index < 32) }
{
    let mut last = None;
    for index in 0..32 {
        if asked.contains(index) && !blank.contains(index) {
            last = Some(index);
        }
    }
    last
}

/// The deck once the head has passed the asked sectors of the segment under it, but the blank ones, which have no
/// address: it is behind the last of them, and where there is none it has not moved.
pub fn passed_all(deck: Deck, asked: LostSet, blank: LostSet) -> Deck
    ensures { result ≡ passed_all deck asked blank }
{
    match last_passed(asked, blank) {
        Some(index) => passed(deck, index),
        None => deck,
    }
}
