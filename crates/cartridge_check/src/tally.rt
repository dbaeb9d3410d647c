//! What a check counted.

ghost use Rattle.std.specs.Prelude.{◌∷◌, [], ◌^◌};
ghost use Rattle.cartridge_check.specs.Telling.{Counted, HasFew};

use command_spec::Verdict;

/// What a check counted.
#[derive(Clone, Copy)]
pub struct Tally {
    /// The segments that were looked at.
    pub segments: u32,
    /// Those of them that can be mended.
    pub mendable: u32,
    /// Those that don't read.
    pub bad: u32,
}

impl Tally {
    /// Counts a segment of which this is told.
    pub(crate) fn count(&mut self, verdict: Verdict)
        requires few { HasFew (2 ^ 26) self.old }
        ensures { Counted (verdict ∷ []) self.old self.new }
    {
        self.segments += 1;
        match verdict {
            Verdict::Sound => {}
            Verdict::Weak { .. } | Verdict::Wrong { .. } | Verdict::Unsettled => self.mendable += 1,
            Verdict::Contradicts | Verdict::Gone { .. } => self.bad += 1,
        }
    }
}
