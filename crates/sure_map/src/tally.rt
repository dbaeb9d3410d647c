//! How many bytes have each mark.

ghost use Rattle.std.specs.Prelude.{◌≡◌, ◌<◌, ◌+◌, ◌^◌};
ghost use Rattle.sure_map.specs.Counts.{total, counted, IsMore};

use dump_spec::Mark;

/// How many bytes have each mark.
#[derive(Clone, Copy, Drop)]
pub struct Tally {
    pub sure: u32,
    pub unchecked: u32,
    pub filled: u32,
}

impl Tally {
    /// With some bytes more of a mark.
    pub fn with_bytes(&self, mark: Mark, count: u32) -> Tally
        requires { total self.now + count < 2 ^ 32 }
        ensures more { IsMore mark count self.now result }
        ensures total { total result ≡ total self.now + count }
    {
        let mut tally = *self;
        match mark {
            Mark::Sure => tally.sure += count,
            Mark::Unchecked => tally.unchecked += count,
            Mark::Filled => tally.filled += count,
        }
        tally
    }

    /// How many have a mark.
    pub fn counted(&self, mark: Mark) -> u32
        ensures { result ≡ counted self.now mark }
    {
        match mark {
            Mark::Sure => self.sure,
            Mark::Unchecked => self.unchecked,
            Mark::Filled => self.filled,
        }
    }
}
