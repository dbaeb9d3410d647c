//! What follows of the promises of a run and is no clause of them. Each is the contract of a function that does nothing.

ghost use Rattle.command_laws.specs.CutLaws.{CutRunsAreStopped, RunsReopen};
ghost use Rattle.command_laws.specs.FirstRuns.{FirstRunsOverSettled};
ghost use Rattle.command_laws.specs.PromiseLaws.{AnswersWhereNoneRose, DeepScrubRunMends, FaultsWhereCountsRose, LeavesAll, ScriptsUntold};
ghost use Rattle.command_spec.specs.declared.words.Words.TheVariants.{Check, Room};
ghost use Rattle.command_laws.specs.ReadableLaws.{FormatsLeaveReadable, FormattedCanBeRead, RunsKeepReadable};

use qic_base::{Sink, Source, Tape};

/// Where no count of faults rose, a run made the plain machine's step, or there was no memory.
pub fn a_run_without_a_failure_answers<T: Tape, S: Source, K: Sink>()
    ensures { AnswersWhereNoneRose T.means S.means K.means }
{}

/// Below the greatest count a fault of an object of the outside is answered exactly where its count rose.
pub fn a_fault_is_answered_where_its_count_rose<T: Tape, S: Source, K: Sink>()
    ensures { FaultsWhereCountsRose T.means S.means K.means }
{}

/// A run of `scrub deep` that is answered Done mends sectors that silently hold other bytes.
pub fn a_run_that_scrubs_deep_mends<T: Tape, S: Source, K: Sink>()
    ensures { DeepScrubRunMends T.means S.means K.means }
{}

/// `room` leaves a cartridge exactly as it was, at its end and at any moment of it, protected or not.
pub fn a_run_that_tells_the_room_leaves_all<T: Tape, S: Source, K: Sink>()
    ensures { LeavesAll T.means S.means K.means Room }
{}

/// So does `check`.
pub fn a_run_that_checks_leaves_all<T: Tape, S: Source, K: Sink>()
    ensures { LeavesAll T.means S.means K.means Check }
{}

/// Behind a formatting that was carried out the volume table can be read; and what one leaves that was stopped is
/// unformatted or can be read.
pub fn a_formatted_table_can_be_read<T: Tape, S: Source, K: Sink>()
    ensures done { FormattedCanBeRead T.means S.means K.means }
    ensures stopped { FormatsLeaveReadable T.means S.means K.means }
{}

/// Where the volume table can be read, and each sector of its segment takes a write, it can be read in each cartridge
/// that a run leaves, but for `new`, `format`, and what loses sectors of the segments 0 to 2; a script may lose sectors of
/// a header copy, where the header in force stays.
pub fn a_run_leaves_the_table_readable<T: Tape, S: Source, K: Sink>()
    ensures { RunsKeepReadable T.means S.means K.means }
{}

/// What a script leaves over a source that tells nothing is what one leaves over some input.
pub fn a_script_over_nothing_told<T: Tape, S: Source, K: Sink>()
    ensures { ScriptsUntold T.means S.means K.means }
{}

/// What a run leaves that a fault of the outside cut off is what a run of a life leaves that was stopped, with the text
/// that the sink took.
pub fn a_run_that_was_cut_off_is_a_stopped_one<T: Tape, S: Source, K: Sink>()
    ensures { CutRunsAreStopped T.means S.means K.means }
{}

/// Where the volume table can be read, and each sector of its segment takes a write, each cartridge that such a run leaves
/// mounts, with just the list that it stands for.
pub fn a_run_reopens<T: Tape, S: Source, K: Sink>()
    ensures { RunsReopen T.means S.means K.means }
{}

/// Of a cartridge that comes back the first run of a command that settles its volume table leaves what it leaves of the
/// settled one, or it was stopped while the table was settled; and its step is one over the settled one.
pub fn a_first_run_is_one_over_the_settled_cartridge<T: Tape, S: Source, K: Sink>()
    ensures { FirstRunsOverSettled T.means S.means K.means }
{}
