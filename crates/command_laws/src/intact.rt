//! What becomes of a cartridge whose whole table holds what it should, so that one sector more of the table's segment may be
//! lost. Each law is the contract of a function that does nothing; their proofs import the lemmas of this crate's `proofs`.

ghost use Rattle.command_laws.specs.Intact.{SettledIsIntact, IntactComesBack, AppendsLeaveIntact, WearsLeaveIntact, ScrubsLeaveIntact, StoppedMakeComesBack, PrintedMakeComesBack, DoneMakeIsIntact, StoppedScriptComesBack, AnsweredScriptComesBack, DoneScriptComesBack, StoppedBehindAppend, AnsweredBehindAppend, DoneBehindAppend};
ghost use Rattle.command_laws.specs.ReadableLaws.{ComesBackCanBeRead, LeftCanBeRead};
ghost use Rattle.command_laws.specs.Between.{FreeMayComeBack, StepsBetweenCarryOn, MountsWhileProtected, ComesBackOnceFree};

/// A cartridge is intact once its table was settled, where each sector of the table's segment takes a write; and then it
/// comes back where one of these sectors is lost.
pub fn an_intact_cartridge_comes_back()
    ensures settled { SettledIsIntact }
    ensures comes { IntactComesBack }
{}

/// An append, a sector that is worn behind the table's segment and a scrub leave a cartridge intact; where one is stopped,
/// it comes back.
pub fn appends_wears_and_scrubs_leave_it_intact()
    ensures appends { AppendsLeaveIntact }
    ensures wears { WearsLeaveIntact }
    ensures scrubs { ScrubsLeaveIntact }
{}

/// A generated run leaves a cartridge that comes back, wherever it is stopped: with all of its volumes once it has
/// printed anything.
pub fn a_run_comes_back()
    ensures stopped { StoppedMakeComesBack }
    ensures printed { PrintedMakeComesBack }
    ensures done { DoneMakeIsIntact }
{}

/// So does a script whose lines spare the header, and lose no sector of the table's segment, as far as it came: with the
/// appends of all lines whose reply was written whole.
pub fn a_script_comes_back()
    ensures stopped { StoppedScriptComesBack }
    ensures answered { AnsweredScriptComesBack }
    ensures done { DoneScriptComesBack }
{}

/// What lines in front of an append wore of the table's segment voids nothing of that, where the append finds its table: it
/// settles the table again, and only the lines from that append on may wear none of it.
pub fn a_script_comes_back_behind_an_append()
    ensures stopped { StoppedBehindAppend }
    ensures answered { AnsweredBehindAppend }
    ensures done { DoneBehindAppend }
{}

/// Up to the next mount of it without its protect mark, a mark that is set or cleared, a newer version, the reference
/// bursts again, a sector that is worn behind the table's segment and a further defect carry on that a cartridge comes
/// back. While it is protected it is mounted with one of the two lists.
pub fn what_comes_between_carries_on()
    ensures begins { FreeMayComeBack }
    ensures steps { StepsBetweenCarryOn }
    ensures mounts { MountsWhileProtected }
    ensures comes { ComesBackOnceFree }
{}

/// What comes back with any one sector of its table's segment lost can be read without a loss, and so can each
/// cartridge that an append, a generated run or a script leaves of one that could be read.
pub fn what_comes_back_can_be_read()
    ensures comes { ComesBackCanBeRead }
    ensures left { LeftCanBeRead }
{}
