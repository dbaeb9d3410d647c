//! What the mounting of a cartridge gives, and what the settling of its volume table leaves. Each is the contract of a
//! function that does nothing, so that other crates can rest on it; their proofs import the lemmas of this crate's
//! `proofs`.

ghost use Rattle.cartridge_laws.specs.MountLaws.{MountsIsFunction, MountsAlways, StandingMounts, StandingMountsOnlySo, SettlingSettles, StoppedSettling, StoppedSettlesAlike, StoppedMounts, StoppedStands, StoppedIsClean, SettledKeepsTable, SettledMounts, SettledStands, SettledIsClean, SettledIsWritten, SettledReadsPlainly, SettledTwice, SettledIsWhole, SettledNeedsNoSteps, TableIsArea, SettlingEffects, StoppedIsCartridge, SettledIsCartridge};

/// The mounting of a cartridge gives at most one thing.
pub fn mounts_is_function()
    ensures { MountsIsFunction }
{}

/// The mounting of a cartridge gives something.
pub fn mounts_always()
    ensures { MountsAlways }
{}

/// The data of a table are 29 sectors.
pub fn table_is_area()
    ensures { TableIsArea }
{}

/// A cartridge that stands for a plain one is mounted as that one, or its table has lost more than the code finds
/// again.
pub fn stands_mounts()
    ensures mounted { StandingMounts }
    ensures nothing_else { StandingMountsOnlySo }
{}

/// All steps that settle a table settle it.
pub fn settling_settles()
    ensures settled { SettlingSettles }
    ensures held { SettlingEffects }
{}

/// A stop among these steps leaves a table with the same data, which is settled as if there had been no stop. What was
/// mounted, and what a cartridge stood for, stays.
pub fn stopped_settling()
    ensures table { StoppedSettling }
    ensures alike { StoppedSettlesAlike }
    ensures mounts { StoppedMounts }
    ensures stands { StoppedStands }
    ensures clean { StoppedIsClean }
    ensures whole { StoppedIsCartridge }
{}

/// A cartridge whose table was settled has the data that it had, and is mounted and stands as before. Nothing is left
/// to be settled, and no readable sector is left out of account any more.
pub fn settled_table()
    ensures table { SettledKeepsTable }
    ensures mounts { SettledMounts }
    ensures stands { SettledStands }
    ensures clean { SettledIsClean }
    ensures written { SettledIsWritten }
    ensures plain { SettledReadsPlainly }
    ensures whole { SettledIsCartridge }
    ensures twice { SettledTwice }
    ensures all { SettledIsWhole }
    ensures no_steps { SettledNeedsNoSteps }
{}
