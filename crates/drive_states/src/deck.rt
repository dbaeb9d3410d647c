//! What is seen of a deck (this project's profile of QIC-117).

ghost use Rattle.std.specs.Prelude.{◌≡◌};
ghost use Rattle.drive_spec.specs.Deck.{view_of, segments_per_track, is_at_bot, is_at_eot, limit, seen_motion, is_stopped, is_streaming};
ghost use Rattle.drive_spec.specs.Terms.{refusal_of, is_protected, is_referenced, status_word, told_segments, power_on_deck};
ghost use Rattle.drive_spec.specs.Effects.{ends_early};
ghost use Rattle.drive_states.specs.Reach.{segment_of};
ghost use Rattle.drive_states.specs.Sound.{IsSound};
ghost use Rattle.drive_states.specs.Typed.{is_seeking};

use drive_spec::{Deck, Motion};
use qic_base::TapeInfo;
use qic117_commands::{Command, DriveView, ErrorCode, Mode, Motion as SeenMotion};

fn seen_motion(motion: Motion) -> SeenMotion
    ensures { result ≡ seen_motion motion }
{
    match motion {
        Motion::Stopped => SeenMotion::Stopped,
        Motion::Streaming { .. } => SeenMotion::Streaming,
        Motion::Seeking { .. } => SeenMotion::Seeking,
    }
}

/// The deck of a drive into which a cartridge was just put; None for a drive without one.
pub fn power_on_deck(cartridge: Option<TapeInfo>) -> Deck
    ensures { result ≡ power_on_deck cartridge }
{
    Deck {
        cartridge,
        mode: Mode::Primary,
        at_load_point: true,
        track: 0,
        offset: 0,
        motion: Motion::Stopped,
        fresh: cartridge.is_some(),
        error: 0,
        format_segments: 0,
    }
}

/// Segments per track; 0 where no cartridge is present.
pub(crate) fn segments_per_track(deck: &Deck) -> u16
    ensures { result ≡ segments_per_track deck.now }
{
    match deck.cartridge {
        Some(info) => info.segments_per_track,
        None => 0,
    }
}

/// The cartridge has the protect mark.
pub fn is_protected(deck: &Deck) -> bool
    ensures { result ≡ is_protected deck.now }
{
    match deck.cartridge {
        Some(info) => info.protected,
        None => false,
    }
}

fn is_referenced(deck: &Deck) -> bool
    ensures { result ≡ is_referenced deck.now }
{
    match deck.cartridge {
        Some(info) => info.referenced,
        None => false,
    }
}

/// The tape neither streams nor seeks.
pub(crate) fn is_stopped(deck: &Deck) -> bool
    ensures { result ≡ is_stopped deck.now.motion }
{
    matches!(deck.motion, Motion::Stopped)
}

/// The drive is on the way to a place.
pub(crate) fn is_seeking(deck: &Deck) -> bool
    ensures { result ≡ is_seeking deck.now.motion }
{
    matches!(deck.motion, Motion::Seeking { .. })
}

/// The tape runs past the head.
pub fn is_streaming(deck: &Deck) -> bool
    ensures { result ≡ is_streaming deck.now.motion }
{
    matches!(deck.motion, Motion::Streaming { .. })
}

fn is_at_bot(deck: &Deck) -> bool
    ensures { result ≡ is_at_bot deck.now }
{
    let begin = if deck.track % 2 == 0 {
        0
    } else {
        segments_per_track(deck)
    };
    deck.cartridge.is_some() && is_stopped(deck) && deck.offset == begin
}

fn is_at_eot(deck: &Deck) -> bool
    ensures { result ≡ is_at_eot deck.now }
{
    let end = if deck.track % 2 == 0 {
        segments_per_track(deck)
    } else {
        0
    };
    deck.cartridge.is_some() && is_stopped(deck) && deck.offset == end
}

fn view(deck: &Deck) -> DriveView
    ensures { result ≡ view_of deck.now }
{
    DriveView {
        present: deck.cartridge.is_some(),
        motion: seen_motion(deck.motion),
        mode: deck.mode,
        protected: is_protected(deck),
        fresh: deck.fresh,
        referenced: is_referenced(deck),
        offset: deck.offset,
    }
}

/// The code of the first row of the table that refuses a command.
pub fn refusal(deck: &Deck, command: Command) -> Option<ErrorCode>
    ensures { result ≡ refusal_of deck.now command }
{
    qic117_commands::refusal(&view(deck), command)
}

/// The status word.
pub(crate) fn status_word(deck: &Deck) -> u8
    ensures { result ≡ status_word deck.now }
{
    let (at_bot, at_eot) = (is_at_bot(deck), is_at_eot(deck));
    qic117_commands::status_word(&view(deck), deck.error != 0, at_bot, at_eot)
}

/// The format segments that the drive tells: their number in Format mode, else the segments per track.
pub(crate) fn told_segments(deck: &Deck) -> u16
    ensures { result ≡ told_segments deck.now }
{
    match deck.mode {
        Mode::Format => deck.format_segments,
        Mode::Primary | Mode::Verify => segments_per_track(deck),
    }
}

/// The offset at which streaming ends.
pub(crate) fn limit(deck: &Deck) -> u16
    ensures { result ≡ limit deck.now }
{
    match deck.mode {
        Mode::Format => deck.format_segments.min(segments_per_track(deck)),
        Mode::Primary | Mode::Verify => segments_per_track(deck),
    }
}

/// Whether the segment under the head is the last before the limit, and more were to be generated than the track
/// has.
pub(crate) fn ends_early(deck: &Deck) -> bool
    requires { IsSound deck.now }
    ensures { result ≡ ends_early deck.now }
{
    deck.mode == Mode::Format
        && segments_per_track(deck) < deck.format_segments
        && limit(deck) <= deck.offset + 1
}

/// The segment that comes next on the track.
pub(crate) fn segment_of(deck: &Deck) -> u32
    ensures { result ≡ segment_of deck.now }
{
    let (track, offset) = (deck.track, deck.offset);
    u32::from(track) * u32::from(segments_per_track(deck)) + u32::from(offset)
}
