//! What a check tells of a segment.

/// What a check tells of one segment. Sectors of a segment count from 0.
#[derive(Clone, Copy, Drop)]
pub enum Verdict {
    /// It reads, and each of its usable sectors does.
    Sound,
    /// It reads, and so many of its usable sectors can't be read, 1 to 3.
    Weak { lost: u8 },
    /// It reads without the sector with this index, which can be read and holds wrong bytes.
    Wrong { sector: u8 },
    /// A mount reads the volume table here, but no code block agrees with all sectors that can be read.
    Unsettled,
    /// At most three sectors can't be read, and it does not read.
    Contradicts,
    /// So many usable sectors can't be read, more than three.
    Gone { lost: u8 },
}
