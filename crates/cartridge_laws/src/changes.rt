//! What each change leaves of what a cartridge stands for, and of what it is mounted as. Each law is the contract of a
//! function that does nothing, so that other crates can rest on it; their proofs import the lemmas of this crate's `proofs`.

ghost use Rattle.cartridge_laws.specs.ChangeLaws.{WornStands, WornMounts, WornIsClean, WornIsBare, FewLostIsInForce, SpoiledStands, SpoiledMounts, SpoiledIsClean, SpoiledIsBare, ProtectedStands, ProtectedMounts, ProtectedIsClean, ProtectedIsBare, ReferencedStands, ReferencedMounts, ReferencedIsClean, ReferencedIsBare, StepsKeepLive};

/// A cartridge with a worn sector stands for the same, where header and table are spared. It is mounted as before where
/// the sector lies behind them.
pub fn worn_sector()
    ensures stands { WornStands }
    ensures in_force { FewLostIsInForce }
    ensures mounts { WornMounts }
{}

/// A further defect is nothing to either.
pub fn spoiled_sector()
    ensures stands { SpoiledStands }
    ensures mounts { SpoiledMounts }
{}

/// So are the marks.
pub fn marks()
    ensures protected_stands { ProtectedStands }
    ensures protected_mounts { ProtectedMounts }
    ensures referenced_stands { ReferencedStands }
    ensures referenced_mounts { ReferencedMounts }
{}

/// Header copies that formatting may begin over stay so: clean ones, where a worn sector spares header and table, and
/// bare ones.
pub fn header_copies()
    ensures worn_is_clean { WornIsClean }
    ensures worn_is_bare { WornIsBare }
    ensures spoiled_is_clean { SpoiledIsClean }
    ensures spoiled_is_bare { SpoiledIsBare }
    ensures protected_is_clean { ProtectedIsClean }
    ensures protected_is_bare { ProtectedIsBare }
    ensures referenced_is_clean { ReferencedIsClean }
    ensures referenced_is_bare { ReferencedIsBare }
{}

/// Where each sector of the table's segment takes a write, each does so at any moment of steps without a new cartridge.
pub fn live_sectors()
    ensures { StepsKeepLive }
{}
