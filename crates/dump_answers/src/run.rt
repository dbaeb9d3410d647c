//! A run over opened files.

ghost use Rattle.std.specs.Prelude.{◌≡◌, ◌∷◌, [], None};
ghost use Rattle.dump_answers.specs.Commands.{refusal_of};
ghost use Rattle.dump_answers.specs.Ends.{CountsByFault, Ends, fault_of};
ghost use Rattle.dump_opening.specs.Inputs.{TellInputs, fault_counts};
ghost use Rattle.dump_spec.specs.Answers.{Answers, Inputs, sure_refusal};

use crate::command::answer_command;
use crate::ending::{Cut, Ending};
use crate::room::SalvageRoom;
use dump_opening::{DumpFiles, OpenError, open_dump};
use dump_output::PutFault;
use dump_spec::Asked;
use qic_base::{Disk, SECTOR, SECTORS, Sink, Source};

/// How a run ends whose dump was not opened. Nothing was written.
fn refuse(error: OpenError) -> Result<Ending, Cut>
    ensures { result ≡ refusal_of error }
{
    match error {
        OpenError::Refused { status } => Ok(Ending {
            status,
            warned: false,
        }),
        OpenError::Input => Err(Cut {
            fault: PutFault::Input,
            warned: false,
        }),
    }
}

/// Answers what is asked of a dump: writes the output, and its map, for which a sink stands that takes all bytes where none is
/// asked for. The file of the map has no byte yet. The line of a table that is not sure is not written, nor that of the status:
/// both are told by the answer.
pub fn answer_dump<D: Disk, S: Source, K: Sink, M: Sink>(
    room: SalvageRoom,
    files: &mut DumpFiles<D, S>,
    asked: &Asked,
    output: &mut K,
    sure: &mut M,
) -> Result<Ending, Cut>
    ensures answers { (inputs : Inputs) → TellInputs D.means S.means files.old inputs → sure_refusal inputs.sure ≡ None →
        Ends K.means M.means (Answers inputs asked.now)
        record { output = output.old; sure = sure.old } record { output = output.new; sure = sure.new } result }
    ensures counts { CountsByFault (fault_counts D.means S.means files.old) (fault_counts D.means S.means files.new)
        (K.means.faults output.old ∷ M.means.faults sure.old ∷ [])
        (K.means.faults output.new ∷ M.means.faults sure.new ∷ []) (fault_of result) }
{
    let SalvageRoom {
        mut rescued,
        mut missing,
        mut masks,
        mut work,
    } = room;
    let mut sectors = [[0; SECTOR]; SECTORS as usize];
    let opened = match open_dump(
        files,
        asked,
        &mut rescued,
        &mut missing,
        &mut masks,
        &mut sectors,
    ) {
        Ok(opened) => opened,
        Err(error) => return refuse(error),
    };
    let dump = opened.with_words(&rescued, &missing, &masks);
    answer_command(
        &mut files.dump,
        &dump,
        asked.command,
        &mut sectors,
        &mut work,
        output,
        sure,
    )
}
