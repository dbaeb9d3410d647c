//! The texts that lie beside a dump: its map, and the lists of segments and of bad sectors.

ghost use Rattle.std.specs.Prelude.{◌≡◌, ◌<◌, ◌*◌, List, ℕ, Option, length};
ghost use Rattle.dump_opening.specs.Counts.{CountsBy, faults_in};
ghost use Rattle.dump_opening.specs.Inputs.{TellsText};
ghost use Rattle.dump_spec.specs.declared.status.Status.TheVariants as ends;
ghost use Rattle.rescue_map.specs.Mask.{IsMarked};
ghost use Rattle.dump_opening.specs.Texts.{ReadsMap, ReadsMissing, ReadsBad};

use crate::opened::OpenError;
use dump_lists::{ListError, read_bad, read_missing};
use dump_spec::{InputText, Status};
use qic_base::{Source, WHOLE};
use rescue_map::{MapError, clear, read_map};

/// The bytes of a text that are read at a time.
const TEXT_ROOM: usize = 4096;

/// A text has its first fault in this line.
fn text_fault(text: InputText, line: u32) -> OpenError
    ensures { result ≡ OpenError.Refused (ends.TextFault text line) }
{
    OpenError::Refused {
        status: Status::TextFault {
            text,
            line: u64::from(line),
        },
    }
}

/// All sectors are in the set.
fn mark_all(set: &mut [u32])
    ensures { (q : ℕ) → q < 32 * length set.new → IsMarked set.new q }
{
    for word in set.iter_mut() {
        *word = WHOLE;
    }
}

/// Makes the set of the sectors that were rescued: as the map says, or of all where there is none.
pub(crate) fn read_rescued<S: Source>(
    map: &mut Option<S>,
    rescued: &mut [u32],
) -> Result<(), OpenError>
    ensures reads { (text : Option (List ℕ)) → TellsText S.means map.old text →
        ReadsMap text rescued.new result }
    ensures count { CountsBy (faults_in S.means.faults map.old) (faults_in S.means.faults map.new) result }
{
    let Some(source) = map else {
        mark_all(rescued);
        return Ok(());
    };
    match read_map(source, &mut [0; TEXT_ROOM], rescued) {
        Ok(()) => Ok(()),
        Err(MapError::Fault { line }) => Err(text_fault(InputText::Map, line)),
        Err(MapError::Source) => Err(OpenError::Input),
    }
}

/// Makes the set of the segments that the dump lacks: as the list says, or of none where there is none.
pub(crate) fn read_lacking<S: Source>(
    list: &mut Option<S>,
    missing: &mut [u32],
) -> Result<(), OpenError>
    ensures reads { (text : Option (List ℕ)) → TellsText S.means list.old text →
        ReadsMissing text missing.new result }
    ensures count { CountsBy (faults_in S.means.faults list.old) (faults_in S.means.faults list.new) result }
{
    let Some(source) = list else {
        clear(missing);
        return Ok(());
    };
    match read_missing(source, &mut [0; TEXT_ROOM], missing) {
        Ok(()) => Ok(()),
        Err(ListError::Fault { line }) => Err(text_fault(InputText::Missing, line)),
        Err(ListError::Source) => Err(OpenError::Input),
    }
}

/// Makes the words of the sectors that the list of bad sectors names; of none where there is none.
pub(crate) fn read_listed<S: Source>(
    list: &mut Option<S>,
    words: &mut [u32],
) -> Result<(), OpenError>
    ensures reads { (text : Option (List ℕ)) → TellsText S.means list.old text →
        ReadsBad text words.new result }
    ensures count { CountsBy (faults_in S.means.faults list.old) (faults_in S.means.faults list.new) result }
{
    let Some(source) = list else {
        clear(words);
        return Ok(());
    };
    match read_bad(source, &mut [0; TEXT_ROOM], words) {
        Ok(()) => Ok(()),
        Err(ListError::Fault { line }) => Err(text_fault(InputText::Bad, line)),
        Err(ListError::Source) => Err(OpenError::Input),
    }
}
