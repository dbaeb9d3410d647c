//! What the restoring of a volume gives. Each law is the contract of a function that does nothing, so that other crates can
//! rest on it; their proofs import the lemmas of this crate's `proofs`.

ghost use Rattle.command_laws.specs.RestoreLaws.{RestoresIsFunction, RestoresAlways, RestoresInNoStep, FramedInNoStep, PiecesHoldAll, TextHoldsPieces, RestoredIsLong, VolumeIsLong, RestoresByteForByte, FewOrFirstLost, RestoresFront, NeverMismatch, StandingRestores, AppendedIsAmong, AppendedIsRestored, RestoresOneByOne, OneByOneRestores, GivenIsFunction, GivenAlways, GivenBeginsRestored, GivenIsLong};

/// A restore gives at most one thing.
pub fn restores_is_function()
    ensures { RestoresIsFunction }
{}

/// A restore gives something.
pub fn restores_always()
    ensures { RestoresAlways }
{}

/// A restore takes no step of the tape, in either form, and the framed form has as many acts.
pub fn restores_in_no_step()
    ensures plain { RestoresInNoStep }
    ensures framed { FramedInNoStep }
{}

/// The text of a restore is as long as the pieces that were read, and as the volume where all were, over any cartridge.
pub fn restored_length()
    ensures pieces { PiecesHoldAll }
    ensures text { TextHoldsPieces }
    ensures whole { RestoredIsLong }
{}

/// What a restore gives is what its pieces give one by one: each is read by itself, and the first that says no data ends
/// it.
pub fn piece_by_piece()
    ensures apart { RestoresOneByOne }
    ensures joined { OneByOneRestores }
{}

/// Of some pieces just one list of bytes is given where zero bytes stand in the place of what doesn't read. It begins
/// with the text of a restore, is that text where all was read, and is as long as the volume.
pub fn given_bytes_are_one()
    ensures function { GivenIsFunction }
    ensures always { GivenAlways }
    ensures front { GivenBeginsRestored }
    ensures long { GivenIsLong }
{}

/// A volume of what a cartridge stands for is restored byte for byte where each of its segments that holds some of it
/// has at most three unreadable sectors.
pub fn byte_for_byte()
    ensures size { VolumeIsLong }
    ensures bytes { RestoresByteForByte }
    ensures gives { StandingRestores }
{}

/// Elsewhere the bytes of the segments before the first such one are given, and it ends there with the number of its
/// unreadable sectors.
pub fn lost_volume()
    ensures first { FewOrFirstLost }
    ensures front { RestoresFront }
    ensures mismatch { NeverMismatch }
{}

/// A volume that was appended is one of what the cartridge stands for. As long as it is, on the same map, and each of
/// its segments that holds some of it has at most three unreadable sectors, just its bytes are restored.
pub fn appended_is_restored()
    ensures among { AppendedIsAmong }
    ensures bytes { AppendedIsRestored }
{}
