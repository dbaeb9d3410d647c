//! Laws of the acts of a volume. Each is the contract of a function that does nothing, so that other crates can rest on it;
//! their proofs import the lemmas of this crate's `proofs`.

ghost use Rattle.command_laws.specs.InputLaws.{VolumeIsWrites, VolumePrintsNothing, FilledPrintsNothing, InputPrintsNothing, VolumeIsFree, FilledIsFree, InputIsFree, VolumeIsOfSectors, FilledIsOfSectors, InputIsOfSectors};

/// The acts of a volume are the writes that an append makes of its bytes.
pub fn a_volume_is_its_writes()
    ensures { VolumeIsWrites }
{}

/// No act prints anything.
pub fn nothing_is_printed()
    ensures volume { VolumePrintsNothing }
    ensures filled { FilledPrintsNothing }
    ensures input { InputPrintsNothing }
{}

/// All acts are writes behind each segment that theirs lie behind.
pub fn all_writes_are_free()
    ensures volume { VolumeIsFree }
    ensures filled { FilledIsFree }
    ensures input { InputIsFree }
{}

/// All acts are writes of whole sectors.
pub fn all_writes_are_of_sectors()
    ensures volume { VolumeIsOfSectors }
    ensures filled { FilledIsOfSectors }
    ensures input { InputIsOfSectors }
{}
