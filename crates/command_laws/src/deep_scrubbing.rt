//! What scrubbing in either form leaves, done or stopped, where a deep scrub also looks for sectors that can be read and
//! hold wrong bytes. Each law is the contract of a function that does nothing, so that other crates can rest on it; their
//! proofs import the lemmas of this crate's `proofs`.

ghost use Rattle.command_laws.specs.DeepScrubLaws.{ShallowIsScrub, FoundMayBe, FormIsFunction, FormAlways, FindsAtOnce, DoneInForm, DoneFormIsCartridge, DoneFormStands, DoneFormIsClean, DoneFormTable, DoneFormIsSettled, SecondFormWritesNothing, SilentSectorsAreMounted, SilentSectorsAreMended, SilentSectorsEnd, FirstCopyIsRight, DeepScrubMends, StoppedInForm, StoppedFormIsCartridge, StoppedFormStands, StoppedFormIsClean, StoppedFormTable, StoppedFormIsSettled, DeepScrubStopped};
ghost use Rattle.command_laws.specs.SilentLaws.{SegmentsAreMadeWhole, StoppedStayMendable, NothingElseChanges, VolumesAreMadeWhole, DeepScrubMakesWhole, StoppedDeepScrubStaysMendable};

/// Without a search for wrong sectors it is a scrub. Scrubbing in a form does one thing, and it does something: two code
/// blocks differ in four sectors (QIC-80-MC), so at most one sector of a segment is found to be wrong. What is found of each segment follows from the cartridge before the
/// first write.
pub fn forms_of_scrubbing()
    ensures shallow { ShallowIsScrub }
    ensures may { FoundMayBe }
    ensures function { FormIsFunction }
    ensures always { FormAlways }
    ensures at_once { FindsAtOnce }
{}

/// After all steps each sector that was unreadable or wrong, of a segment that reads, holds its sector of the segment's
/// block, where it takes a write, and nothing else has changed. A cartridge that stands for a plain one stands for it.
pub fn done_in_form()
    ensures scrubbed { DoneInForm }
    ensures stands { DoneFormStands }
    ensures clean { DoneFormIsClean }
    ensures table { DoneFormTable }
    ensures settled { DoneFormIsSettled }
    ensures whole { DoneFormIsCartridge }
{}

/// What differs from a cartridge that stands in sectors that silently hold other bytes, at most one in each header copy and
/// each segment of a volume, is mounted as that one, and stands behind a deep scrub.
pub fn silent_sectors()
    ensures mounted { SilentSectorsAreMounted }
    ensures mended { SilentSectorsAreMended }
    ensures ends { SilentSectorsEnd }
{}

/// Where each usable sector of the segments that are looked at takes what is written to it, a second scrub in the same form
/// writes nothing.
pub fn second_in_form()
    ensures { SecondFormWritesNothing }
{}

/// A stop among the steps leaves each sector as it was, but for those to be written, which may be lost or hold their
/// sector of the block. A cartridge that stands for a plain one stands for it, at any moment.
pub fn stopped_in_form()
    ensures mending { StoppedInForm }
    ensures stands { StoppedFormStands }
    ensures clean { StoppedFormIsClean }
    ensures table { StoppedFormTable }
    ensures settled { StoppedFormIsSettled }
    ensures whole { StoppedFormIsCartridge }
{}

/// Of a cartridge that stands no sector of the first header copy is wrong. The command `scrub deep` is carried out on each
/// unprotected cartridge that differs so from one that stands, and whose table was settled; what it leaves stands. A stop in it leaves what a stop in the settling leaves, or each sector as it
/// was, lost, or with its sector of the block.
pub fn a_deep_scrub()
    ensures right { FirstCopyIsRight }
    ensures mends { DeepScrubMends }
    ensures stopped { DeepScrubStopped }
{}

/// A segment that is looked at, and was written, is whole behind a deep scrub, whatever became of the others, where at most
/// one sector silently holds other bytes and at most one more can't be read, or none does and at most three can't be read.
/// So is each volume whose segments are all so. Nothing else changes: each sector is as it was, or was put right. A stop
/// leaves each such segment so.
pub fn silent_segments()
    ensures whole { SegmentsAreMadeWhole }
    ensures stopped { StoppedStayMendable }
    ensures nothing_else { NothingElseChanges }
    ensures volumes { VolumesAreMadeWhole }
{}

/// The command `scrub deep` is carried out on each cartridge that mounts and isn't protected, and makes each such segment
/// whole, but for the table's. A stop in it leaves each of them so that the next one does.
pub fn a_deep_scrub_of_silent_segments()
    ensures whole { DeepScrubMakesWhole }
    ensures stopped { StoppedDeepScrubStaysMendable }
{}
