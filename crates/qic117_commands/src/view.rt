//! What refusals and the status word read of a drive.

/// The mode that the drive is in (QIC-117).
#[derive(Clone, Copy, PartialEq, Eq)]
pub enum Mode {
    Primary,
    Format,
    Verify,
}

/// How the tape moves: not at all, forward over the segments, or to a place that the head seeks.
#[derive(Clone, Copy, PartialEq, Eq)]
pub enum Motion {
    Stopped,
    Streaming,
    Seeking,
}

/// What the drive's answer to a command rests on.
#[derive(Clone, Copy)]
pub struct DriveView {
    /// A cartridge is in the drive.
    pub present: bool,
    pub motion: Motion,
    pub mode: Mode,
    /// The cartridge is write protected.
    pub protected: bool,
    /// The cartridge is new: no report of the error word was begun since it was put in.
    pub fresh: bool,
    /// The cartridge has its reference bursts.
    pub referenced: bool,
    /// The segments of the track that lie before the head, in logical order.
    pub offset: u16,
}
