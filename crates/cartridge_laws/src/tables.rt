//! Laws of the volume table that are proved of its definitions; the functions do nothing.

ghost use Rattle.cartridge_laws.specs.TableLaws.{DataAreSoundOrFaulty, FaultlessIsSound, PutEntryAloneIsShown, PutEntryIsFaultless, PutEntryIsShown, SoundDataShowVolumes, SoundIsFaultless, VolumesAreDetermined};

/// The bytes of a table show at most one list of volumes.
pub fn volumes_are_determined()
    ensures { VolumesAreDetermined }
{}

/// The bytes of a table with no slot at fault show a list of volumes.
pub fn sound_data_show_volumes()
    ensures { SoundDataShowVolumes }
{}

/// The bytes of a table have a first slot at fault, or no slot at fault.
pub fn data_are_sound_or_faulty()
    ensures { DataAreSoundOrFaulty }
{}

/// The bytes of a table that show a list have no slot at fault exactly where the list is in order, behind the table's
/// segment and up to the last one.
pub fn sound_lists()
    ensures faultless { FaultlessIsSound }
    ensures sound { SoundIsFaultless }
{}

/// An entry that is put is read again: with it in the slot behind those of a list, the bytes of a table show the list
/// with that entry, and no other one. They have no slot at fault where that list is in order.
pub fn a_put_entry_is_read_again()
    ensures shown { PutEntryIsShown }
    ensures alone { PutEntryAloneIsShown }
    ensures faultless { PutEntryIsFaultless }
{}
