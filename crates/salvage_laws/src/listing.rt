//! The list of the volumes of an exported cartridge.

ghost use Rattle.salvage_laws.specs.ListLaws.{ListAgrees, StandingListAgrees};

/// The list is the one that the cartridge shows when it is mounted.
pub fn list_agrees()
    ensures mounted { ListAgrees }
    ensures standing { StandingListAgrees }
{}
