//! What a drive is in, but for its end of the cable (this project's profile of QIC-117).

use qic_base::TapeInfo;
use qic117_commands::Mode;

/// Whether the tape stands, streams past the head, of which it has yet to reach the sectors from `next` on, 0 to 32,
/// or moves to a place for so many more gaps.
#[derive(Clone, Copy)]
pub enum Motion {
    Stopped,
    Streaming { next: u8 },
    Seeking { left: u8 },
}

/// The deck of a drive.
#[derive(Clone, Copy)]
pub struct Deck {
    /// The length and the marks of the cartridge; None where none is present.
    pub cartridge: Option<TapeInfo>,
    pub mode: Mode,
    /// The drive stands at the load point, or seeks it.
    pub at_load_point: bool,
    /// The track of the head, 0 to 27.
    pub track: u8,
    /// The logical offset of the segment that comes next on the track, 0 to the segments per track.
    pub offset: u16,
    pub motion: Motion,
    /// The new cartridge flag.
    pub fresh: bool,
    /// The error word, 0 for none: a code in the low byte, a command in the high byte.
    pub error: u16,
    /// The format segments, below 4,096.
    pub format_segments: u16,
}
