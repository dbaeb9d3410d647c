//! Cartridges that have no compressed volume.

ghost use Rattle.salvage_laws.specs.UncompressedLaws.{AppendAddsNone, EmptyHasNone};

/// A plain cartridge without a volume has no compressed one, and an append adds none.
pub fn appends_are_uncompressed()
    ensures empty { EmptyHasNone }
    ensures appended { AppendAddsNone }
{}
