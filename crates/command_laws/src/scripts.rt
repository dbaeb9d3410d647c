//! Laws of the plain machine of `script`. Each is the contract of a function that does nothing.

ghost use Rattle.command_laws.specs.ScriptLaws.{ScriptHasOneOutcome, ScriptHasAnOutcome, StopsInOne};
ghost use Rattle.command_laws.specs.ScriptStanding.{ItemsHaveBytes, ItemsStand, StoppedItemStands, FaultStands, DoneScriptStands, StoppedScriptStands, AnsweredBetween, AnsweredBehind};
ghost use Rattle.command_laws.specs.ScriptListing.{ListedBetween, ListedBehind, ListedDone, ListedNone};

/// An input has at most one outcome over a mounted cartridge.
pub fn an_input_has_one_outcome()
    ensures { ScriptHasOneOutcome }
{}

/// An input has an outcome over a mounted cartridge, any list of numbers as the input, and whatever its sectors hold
/// behind the table.
pub fn an_input_has_an_outcome()
    ensures { ScriptHasAnOutcome }
{}

/// A stop in the steps of all items is a stop in one of them, with those before it done; or in an append behind them
/// whose bytes end early.
pub fn a_stop_is_in_one_item()
    ensures { StopsInOne }
{}

/// Items leave what stands, with the volumes that were appended; a stop in one of them leaves what stood before it or
/// behind it, and one in an append whose bytes end early leaves what stood. An input of bytes has such items. A stop in
/// one of them is told where each sector of the table's segment takes a write; what they leave done also where some
/// take none.
pub fn items_keep_what_stands()
    ensures bytes { ItemsHaveBytes }
    ensures done { ItemsStand }
    ensures stopped { StoppedItemStands }
    ensures early { FaultStands }
{}

/// A script leaves what stands behind its items, also where sectors of the table's segment take no write; a stop in it
/// what stands behind some of them, where each of these takes one.
pub fn a_script_keeps_what_stands()
    ensures done { DoneScriptStands }
    ensures stopped { StoppedScriptStands }
{}

/// Items whose reply was written whole are among those, and at most one more, where each sector of the table's segment
/// takes a write.
pub fn answered_items_stand()
    ensures between { AnsweredBetween }
    ensures behind { AnsweredBehind }
{}

/// A cartridge that was mounted with a list is mounted with the list behind the items whose reply was written whole,
/// whatever the sectors of its volumes hold, and where the sink broke a reply off, behind one more; with the list
/// behind all, where all was done. None of these items may have worn a sector of header or table.
pub fn answered_items_are_listed()
    ensures between { ListedBetween }
    ensures behind { ListedBehind }
    ensures done { ListedDone }
    ensures none { ListedNone }
{}
