//! The sets of places that the reading of the table's segment tries.

ghost use Rattle.std.specs.Prelude.{◌≡◌, ◌<◌, ◌+◌, ◌++◌, ◌∷◌, [], ℕ, List};
ghost use Rattle.volume_table.specs.Trials.{AreTrials};

use qic_base::LostSet;

/// The sets of places that are left out of account, in the order in which they are tried.
#[derive(Clone, Copy, Debug, PartialEq, Eq)]
pub struct Trials {
    /// How many sets there are, 1 to 5.
    pub count: u8,
    /// The sets, and empty ones behind them.
    pub sets: [LostSet; 5],
}

impl Trials {
    /// No set but this.
    pub(crate) fn of(set: LostSet) -> Trials
        ensures { AreTrials result (set ∷ []) }
    {
        let empty = LostSet::from_mask(0);
        Trials {
            count: 1,
            sets: [set, empty, empty, empty, empty],
        }
    }

    /// One set more, behind the others; there are fewer than 5.
    pub(crate) fn add(&mut self, set: LostSet)
        requires { self.old.count < 5 }
        ensures more { (sets : List ℕ) → AreTrials self.old sets → AreTrials self.new (sets ++ set ∷ []) }
        ensures count { self.new.count ≡ self.old.count + 1 }
    {
        self.sets[self.count as usize] = set;
        self.count += 1;
    }
}
