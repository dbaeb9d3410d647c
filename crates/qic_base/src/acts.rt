//! How runs over acts join, and what follows of acts that were cut off. Each is the contract of a function that does
//! nothing, so that other crates can rest on it; their proofs import the lemmas of this crate's `proofs`.

ghost use Rattle.qic_base.specs.JoinLaws.{NothingWent, WentBoth, WentThenCut, CutIsLonger, CutIsTorn, CutStops, CutTookFront, CutFellNone, CutOthersStood, CutRose};

use crate::{Sink, Source, Tape};

/// Acts that went one after the other went as one list; where some were cut off behind others, or before others, the
/// whole list was.
pub fn acts_join<T: Tape, S: Source, K: Sink>()
    ensures nothing { NothingWent T.means S.means K.means }
    ensures both { WentBoth T.means S.means K.means }
    ensures cut { WentThenCut T.means S.means K.means }
    ensures longer { CutIsLonger T.means S.means K.means }
{}

/// Acts that were cut off leave of the tape what a stop in their steps leaves, then and at any moment before, and of
/// their text a front; no count of faults fell; that of the object that failed rose by one, and the others are as they were.
pub fn acts_cut_off<T: Tape, S: Source, K: Sink>()
    ensures torn { CutIsTorn T.means S.means K.means }
    ensures stops { CutStops T.means S.means K.means }
    ensures text { CutTookFront T.means S.means K.means }
    ensures later { CutFellNone T.means S.means K.means }
    ensures rose { CutRose T.means S.means K.means }
    ensures others { CutOthersStood T.means S.means K.means }
{}
