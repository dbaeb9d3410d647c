//! The words of a line.

ghost use Rattle.std.specs.Prelude.{◌≡◌, ◌∷◌, ◌++◌, [], List, ℕ};
ghost use Rattle.rescue_map.specs.Spelling.{word_is};
ghost use Rattle.rescue_map.specs.Scanning.{AreWords};

use crate::spelling::Word;

/// The first three words of a line, and how many it has: 4 stands for more than three.
#[derive(Clone, Copy)]
pub struct LineWords {
    pub first: Word,
    pub second: Word,
    pub third: Word,
    pub count: u8,
}

impl LineWords {
    /// No words.
    pub fn new() -> LineWords
        ensures { AreWords result [] }
    {
        LineWords {
            first: Word::Missing,
            second: Word::Missing,
            third: Word::Missing,
            count: 0,
        }
    }

    /// A word more.
    pub fn push(&mut self, word: Word)
        ensures { (list : List (List ℕ)) (bytes : List ℕ) → AreWords self.old list → word ≡ word_is bytes →
            AreWords self.new (list ++ bytes ∷ []) }
    {
        match self.count {
            0 => {
                self.first = word;
                self.count = 1;
            }
            1 => {
                self.second = word;
                self.count = 2;
            }
            2 => {
                self.third = word;
                self.count = 3;
            }
            _ => self.count = 4,
        }
    }
}
