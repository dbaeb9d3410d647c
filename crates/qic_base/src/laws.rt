//! The laws of the words that every layer shares. Each is the contract of a function that does nothing; their proofs
//! import the lemmas of this crate's `proofs`.

ghost use Rattle.qic_base.specs.DateLaws.{WrittenDateIsReadBack};

/// The word that is written for a date shows that date again, field by field.
pub fn written_date_is_read_back()
    ensures { WrittenDateIsReadBack }
{}
