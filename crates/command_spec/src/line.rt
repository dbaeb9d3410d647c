//! The lines of a script, with their values.

use qic_base::Name;

/// A line of a script with its values. An append's line is followed at once by `length` bytes. A date that is not
/// given is 0.
#[derive(Clone, Copy, PartialEq, Eq)]
pub enum Line {
    Append { name: Name, length: u32, date: u32 },
    List,
    Restore { number: u32 },
    Scrub,
    Lose { segment: u32, sector: u32 },
    End,
}
