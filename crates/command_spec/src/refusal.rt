//! Why a line of a script is refused.

/// Why a line of a script is refused; the script goes on.
#[derive(Clone, Copy)]
pub enum Refusal {
    /// The cartridge is write protected.
    Protected,
    /// There is room for `have` bytes, and `need` are asked for.
    Full { need: u64, have: u64 },
    /// There is no volume of this number among `count`.
    NoVolume { number: u32, count: u32 },
    /// So many usable sectors of a segment that is needed are unreadable, more than three.
    Lost { segment: u32, lost: u8 },
    /// At most three are, and no code block agrees with the others.
    Mismatch { segment: u32 },
    /// The cartridge has no such sector.
    Place { segment: u32, sector: u32 },
}
