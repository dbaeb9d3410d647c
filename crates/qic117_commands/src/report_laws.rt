//! What the two ends of a report have in common, as a law over its definition.

ghost use Rattle.std.specs.Prelude.{◌≡◌, ◌↔◌, ◌<◌, ◌^◌, ℕ, List, Bool, true, Some, ◌∷◌};
ghost use Rattle.qic117_commands.specs.Report.{report_of, word_of};

/// The round trip: the levels that follow the acknowledgement in a word's report, and only these, are
/// collected as that word. It does nothing; its contract is the law.
pub fn round_trip()
    ensures { (width word : ℕ) (levels : List Bool) → word < 2 ^ width
        → (report_of width word ≡ true ∷ levels) ↔ (word_of width levels ≡ Some word) }
{}
