//! The drive's end of a report.

ghost use Rattle.std.specs.Prelude.{◌≡◌, ◌<◌, ◌^◌};
ghost use Rattle.qic117_commands.specs.Report.{IsWidth, levels_of};
ghost use Rattle.qic117_commands.specs.Shows.{Shows};

use std::marker::Model;

/// What a report shows next on the line (QIC-117): a bit of the word, the final 1, or nothing more.
#[derive(Clone, Copy, PartialEq, Eq, Debug)]
pub enum Shown {
    Bit(bool),
    Final,
    Past,
}

/// A report under way. Contracts see the levels that it has still to show, after the acknowledgement.
#[derive(Drop)]
pub struct Shifter {
    /// The digits still to show, the next one lowest.
    digits: u16,
    /// How many levels are still to show, the final one included: 0 to 17.
    left: u8,
}

impl Model for Shifter {
    ghost use Rattle.std.specs.Prelude.{Bool, List};
    ghost use Rattle.qic117_commands.specs.Left.{levels_left};

    ghost Value = { List Bool };

    ghost view = { λ s. levels_left s.left s.digits };
}

impl Shifter {
    /// A report of a word of 8 or 16 bits, just acknowledged.
    pub fn load(word: u16, width: u8) -> Shifter
        requires width { IsWidth width }
        requires fits { word < 2 ^ width }
        ensures { result ≡ levels_of width word }
    {
        Shifter {
            digits: word,
            left: width + 1,
        }
    }

    /// Shows the next level: the bits of the word, the least first, then the final 1 once.
    pub fn next(&mut self) -> Shown
        ensures { Shows self.old self.new result }
    {
        match self.left {
            0 => Shown::Past,
            1 => {
                self.left = 0;
                Shown::Final
            }
            _ => {
                let level = self.digits % 2 == 1;
                self.digits /= 2;
                self.left -= 1;
                Shown::Bit(level)
            }
        }
    }
}
