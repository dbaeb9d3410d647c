//! What follows of the acts of a volume that was given. Each law is the contract of a function that does nothing, so that
//! other crates can rest on it; their proofs import the lemmas of this crate's `proofs`.

ghost use Rattle.command_laws.specs.OutputLaws.{RestoredAreOf, PrintedInNoStep, TextOfFirst};

/// The acts of a restore are acts of its first pieces, and it ends as that says.
pub fn restored_are_acts_of_pieces()
    ensures { RestoredAreOf }
{}

/// Acts of the first of some pieces take no step of the tape, in either form, and their text is as long as these
/// pieces.
pub fn acts_of_pieces()
    ensures steps { PrintedInNoStep }
    ensures text { TextOfFirst }
{}
