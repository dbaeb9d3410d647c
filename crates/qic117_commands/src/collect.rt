//! The host's end of a report.

ghost use Rattle.std.specs.Prelude.{◌≡◌, ◌↔◌, ◌<◌, ◌≤◌, ◌^◌, [], ◌∷◌, ◌++◌, true, drop, length, nat_lt, IsSome, IfSome};
ghost use Rattle.qic117_commands.specs.Report.{IsWidth, word_of};

use std::marker::Model;

/// Collects the levels that follow the acknowledgement of a report (QIC-117). Contracts see its width
/// and the levels that it took.
#[derive(Drop)]
pub struct Collector {
    width: u8,
    /// How many levels it took, at most `width + 1`.
    count: u8,
    /// The levels as binary digits, the first one lowest: the final 1 stands above the word.
    levels: u32,
}

impl Model for Collector {
    ghost use Rattle.std.specs.Prelude.{◌+◌, ◌^◌, ◌<◌, ◌≤◌};
    ghost use Rattle.qic117_commands.specs.Digits.{digits};
    ghost use Rattle.qic117_commands.specs.Report.{Collected, IsWidth};

    ghost Value = { Collected };

    ghost view = { λ c. record { width = c.width; levels = digits c.count c.levels } };

    ghost invariant = { λ c. IsWidth c.width × (c.count ≤ c.width + 1) × (c.levels < 2 ^ c.count) };
}

impl Collector {
    /// An empty collector of a word of 8 or 16 bits.
    pub fn new(width: u8) -> Collector
        requires { IsWidth width }
        ensures { result ≡ record { width = width; levels = [] } }
    {
        Collector {
            width,
            count: 0,
            levels: 0,
        }
    }

    /// Takes the next level of the line. Once it has a level more than its width it takes no more.
    pub fn push(&mut self, level: bool)
        ensures width { self.new.width ≡ self.old.width }
        ensures room { length self.old.levels ≤ self.old.width
            → self.new.levels ≡ self.old.levels ++ level ∷ [] }
        ensures full { self.old.width < length self.old.levels → self.new ≡ self.old }
    {
        if self.count <= self.width {
            if level {
                self.levels += 1 << self.count;
            }
            self.count += 1;
        }
    }

    /// Whether it took a level more than its width, so that the report is over.
    pub fn is_full(&self) -> bool
        ensures { result ≡ nat_lt self.now.width (length self.now.levels) }
    {
        self.count > self.width
    }

    /// The word, from the moment that `width` levels and then the final 1 were pushed. A level 0 in the
    /// place of the final 1 ends the report without a word.
    pub fn word(&self) -> Option<u16>
        ensures word { result ≡ word_of self.now.width self.now.levels }
        ensures complete { IsSome result ↔ (drop self.now.width self.now.levels ≡ true ∷ []) }
        ensures fits { IfSome result (λ word. word < 2 ^ self.now.width) }
    {
        let final_bit = 1 << self.width;
        if self.levels < final_bit {
            return None;
        }
        Some((self.levels - final_bit) as u16)
    }
}
