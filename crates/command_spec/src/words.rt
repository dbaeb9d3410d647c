//! The commands of `tape`, with their values.

use qic_base::Name;

/// A command with its values. Segments, sectors, volumes and counts are numbers up to 999,999,999; a date is a date
/// word, and 0 where none is given.
#[derive(Clone, Copy, PartialEq, Eq)]
pub enum Words {
    /// A new cartridge, with 3 to `LONGEST` segments per track.
    New { segments: u16 },
    Defect { segment: u32, sector: u32 },
    Lose { segment: u32, sector: u32 },
    Protect { on: bool },
    Format { label: Name, date: u32 },
    Info,
    Room,
    /// What can be mended and what can't, without a write.
    Check,
    Append { name: Name, date: u32 },
    List,
    Restore { number: u32 },
    Scrub,
    /// A scrub that also looks for sectors that can be read and hold wrong bytes.
    ScrubDeep,
    Pulses,
    Script,
    /// A generated run of 1 to 200 volumes.
    Make { seed: u32, count: u32 },
    /// The cartridge is kept in the newest layout of an image.
    Upgrade,
}
