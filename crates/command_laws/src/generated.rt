//! What a run of `make` comes to. Each law is the contract of a function that does nothing, so that other crates can
//! rest on it; their proofs import the lemmas of this crate's `proofs`.

ghost use Rattle.command_laws.specs.MadeLaws.{MakesOneThing, MakesSomething, StopsAreInSteps, StoppedMakeStands, DoneMakeStands, AnsweredMakeStands, MadeAreAnswered, MadeWhereThereIsRoom, MakeLists, MadeAreListed};

/// A run does one thing on a cartridge.
pub fn a_run_is_one()
    ensures { MakesOneThing }
{}

/// A run does something on a mounted cartridge, whatever its sectors hold.
pub fn a_run_has_an_outcome()
    ensures { MakesSomething }
{}

/// A stop among the steps of a run is a stop inside one of its steps, with those before it carried out.
pub fn a_stop_is_in_one_step()
    ensures { StopsAreInSteps }
{}

/// On a cartridge that stands for a plain one a run leaves it with all made volumes, or where it was refused with those
/// that were appended by its answer, also where sectors of the table's segment take no write; and where each of these
/// takes one, a stop in it with some of them: the worn sectors lie behind the table, and each append leaves the old
/// volumes or the new ones.
pub fn a_run_keeps_what_stands()
    ensures done { DoneMakeStands }
    ensures answered { AnsweredMakeStands }
    ensures stopped { StoppedMakeStands }
{}

/// A run prints nothing before all volumes were appended: where something was printed, all of them stand.
pub fn made_volumes_are_answered()
    ensures { MadeAreAnswered }
{}

/// On a cartridge that stands for a plain one, and whose table reads, a run is carried out where each made volume has
/// room, and where behind the scrub no segment of one has more than three unreadable sectors.
pub fn a_run_with_room_is_carried_out()
    ensures { MadeWhereThereIsRoom }
{}

/// A run leaves a mounted cartridge mounted with its list and some of the made volumes behind it, whatever the sectors
/// of its volumes hold: all of them where all was carried out, or something was printed.
pub fn made_volumes_are_listed()
    ensures lists { MakeLists }
    ensures all { MadeAreListed }
{}
