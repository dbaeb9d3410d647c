//! What a life of many runs leaves, each of them answered or stopped anywhere. Each law is the contract of a function that does
//! nothing, so that other crates can rest on it; their proofs import the lemmas of this crate's `proofs`.

ghost use Rattle.command_laws.specs.Life.{ALife};
ghost use Rattle.command_laws.specs.LifeLaws.{AnsweredRuns, BackupsAreGivenBack, FormatBegins, NewAndFormatBegin, StoppedRuns, VolumesAreGivenBack, VolumesAreKept};
ghost use Rattle.command_laws.specs.LifeOneLoss.{ALifeWithOneLoss, VolumesAreGivenBackSo, VolumesAreKeptSo};
ghost use Rattle.command_laws.specs.LifeReopens.{AReopeningLife};
ghost use Rattle.command_laws.specs.SettledRuns.{OutcomesOverSettled, RunsOverSettled};

/// Behind each event of a life the cartridge stands for the volumes that the answered commands made, with those of the
/// command that was stopped or not.
pub fn a_life()
    ensures { ALife }
{}

/// No volume is lost or changed in a life without `new` and `format`, wherever its runs are stopped.
pub fn a_life_keeps_its_volumes()
    ensures { VolumesAreKept }
{}

/// Each volume is given back byte for byte behind such a life, where the volume table can be read and none of its segments
/// has lost more than three sectors; and one whose append was answered Done is just the bytes of the input.
pub fn a_life_gives_its_volumes_back()
    ensures volumes { VolumesAreGivenBack }
    ensures backups { BackupsAreGivenBack }
{}

/// Any cartridge that was formatted begins one, and so does a new one that was.
pub fn a_formatted_cartridge_begins_a_life()
    ensures formatted { FormatBegins }
    ensures renewed { NewAndFormatBegin }
{}

/// Each step of the plain machine over words, and what a stop in words leaves, is a run of a life.
pub fn runs_of_words_are_of_a_life()
    ensures answered { AnsweredRuns }
    ensures stopped { StoppedRuns }
{}

/// Behind each event of a life in which no sector of the table's segment is lost beside what a stop takes, the cartridge
/// mounts, with just the volumes that it stands for; one without a list is unformatted.
pub fn a_life_reopens()
    ensures { AReopeningLife }
{}

/// A run over a cartridge that mounts, of a command that settles its volume table, is one over the settled cartridge: the
/// same answer, output and bytes taken, and the same is left. Or it was stopped while the table was settled.
pub fn a_run_is_one_over_the_settled_cartridge()
    ensures outcomes { OutcomesOverSettled }
    ensures runs { RunsOverSettled }
{}

/// One sector more of the table's segment may be lost behind the settling of an append, a script or a generated run: behind
/// each turn of such a life the cartridge mounts, with just the volumes that the answered commands made, and those of the
/// one that was stopped or not; and the first run that opens it goes on as over a settled one. Without `new` and `format` no
/// volume is lost or changed, and each is given back, also by that run.
pub fn a_life_with_one_loss()
    ensures becomes { ALifeWithOneLoss }
    ensures kept { VolumesAreKeptSo }
    ensures given { VolumesAreGivenBackSo }
{}
