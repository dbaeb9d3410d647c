//! What formatting writes is determined. Each law is the contract of a function that does nothing, so that other crates
//! can rest on it; their proofs import the lemmas of this crate's `proofs`.

ghost use Rattle.cartridge_laws.specs.FreshLaws.{FirstDefectOrNone, FirstDefectIsNone, FirstDefectIsOne, SpelledIsOne, ShownAreWords, MarksAreOne, FreshAreaIsOne, FreshAreaExists};

/// A cartridge has a first segment in front with a defect, and only one, or none of them has a defect.
pub fn first_defect_or_none()
    ensures found { FirstDefectOrNone }
    ensures apart { FirstDefectIsNone }
    ensures one { FirstDefectIsOne }
{}

/// At most one data area spells a header and the words of its map.
pub fn spelled_is_one()
    ensures { SpelledIsOne }
{}

/// At most one map of words of 32 bits marks a cartridge's defects, and the words that an area shows are such words.
pub fn marks_are_one()
    ensures shown { ShownAreWords }
    ensures marks { MarksAreOne }
    ensures fresh { FreshAreaIsOne }
{}

/// There are fresh header data for each cartridge, label and date, with words that mark the cartridge's defects.
pub fn fresh_area_exists()
    ensures { FreshAreaExists }
{}
