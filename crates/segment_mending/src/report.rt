//! What a scrubbing counted.

ghost use Rattle.std.specs.Prelude.{◌≡◌, ◌≤◌, ◌^◌};
ghost use Rattle.segment_mending.specs.Looking.{HasFew, with_mended, with_unread};
ghost use Rattle.segment_mending.specs.Mending.{reported};

/// What a scrubbing counted.
#[derive(Clone, Copy)]
pub struct ScrubReport {
    /// The segments that were looked at.
    pub segments: u32,
    /// The writes sent: the sectors for which a write was sent, also where the sector takes none.
    pub mended: u32,
    /// The segments that do not read.
    pub unreadable: u32,
}

impl ScrubReport {
    /// Counts a segment that reads, in which writes of so many sectors were sent, at most 32.
    pub(crate) fn count_mended(&mut self, sectors: u8)
        requires few { HasFew (2 ^ 26) (reported self.old) }
        requires sectors { sectors ≤ 32 }
        ensures { reported self.new ≡ with_mended sectors (reported self.old) }
    {
        self.segments += 1;
        self.mended += u32::from(sectors);
    }

    /// Counts a segment that does not read.
    pub(crate) fn count_unreadable(&mut self)
        requires few { HasFew (2 ^ 26) (reported self.old) }
        ensures { reported self.new ≡ with_unread (reported self.old) }
    {
        self.segments += 1;
        self.unreadable += 1;
    }
}
