//! What a failing call of a tape in memory leaves.

/// What a chosen failing call of a tape in memory leaves: all as it was; each written sector lost, each readable sector
/// of the segment lost, or no cartridge; or the call done.
#[derive(Clone, Copy, Debug, PartialEq, Eq)]
pub enum Outcome {
    Old,
    Lost,
    New,
}

/// How a call ended.
#[derive(Clone, Copy)]
pub(crate) enum End {
    Done,
    Failed(Outcome),
}
