//! What is asked of an opened dump.

ghost use Rattle.std.specs.Prelude.{◌≡◌, ◌≤◌, ◌∷◌, [], false, IfErr, IfOk, OnOk, length};
ghost use Rattle.dump_answers.specs.Commands.{Prints, by_output, ended_by};
ghost use Rattle.dump_answers.specs.Ends.{CountsByFault, Ends, fault_of};
ghost use Rattle.dump_answers.specs.Tables.{FitsIn};
ghost use Rattle.dump_opening.specs.Headers.{HasTold};
ghost use Rattle.dump_opening.specs.Opened.{Shows};
ghost use Rattle.dump_output.specs.declared.fault.PutFault.TheVariants as faults;
ghost use Rattle.dump_spec.specs.Answers.{Known, AnswersTo, TableIs};
ghost use Rattle.dump_spec.specs.declared.asked.Command.TheVariants as commands;
ghost use Rattle.dump_tables.specs.Found.{table_in};

use crate::checking::check_dump;
use crate::ending::{Cut, Ending};
use crate::telling::{is_unsure, tell_info, tell_list};
use crate::volume::{AskedVolume, put_segments, put_volume};
use dump_opening::OpenDump;
use dump_output::PutFault;
use dump_spec::{Command, Status};
use dump_tables::{TablePlace, find_table};
use qic_base::{Disk, DiskFailed, Sector, Sink, SinkFailed};
use segment_solve::Workspace;

/// A status or a fault, where it is known whether the table is not sure.
fn with_warning(how: Result<Status, PutFault>, warned: bool) -> Result<Ending, Cut>
    ensures { result ≡ ended_by warned how }
{
    match how {
        Ok(status) => Ok(Ending { status, warned }),
        Err(fault) => Err(Cut { fault, warned }),
    }
}

/// A write that failed is a fault of the output.
fn by_sink(how: Result<Status, SinkFailed>) -> Result<Status, PutFault>
    ensures { result ≡ by_output how }
{
    match how {
        Ok(status) => Ok(status),
        Err(SinkFailed) => Err(PutFault::Output),
    }
}

/// The table of a dump, whose data are then the first of the sectors.
fn table_of<D: Disk>(
    disk: &mut D,
    dump: &OpenDump,
    sectors: &mut [Sector],
    work: &mut Workspace,
) -> Result<Option<TablePlace>, Cut>
    requires room { length sectors.old ≡ 32 }
    requires work { length work.old ≡ 32 }
    requires masks { length dump.now.known.masks.now ≡ 65536 }
    requires missing { length dump.now.known.missing.now ≡ 2048 }
    ensures table { IfOk result (λ found. (known : Known) → Shows dump.now (D.means.told disk.old) known →
        TableIs known (table_in sectors.new found)) }
    ensures few { IfOk result (λ found. FitsIn sectors.new found) }
    ensures cut { IfErr result (λ cut. cut ≡ record { fault = faults.Input; warned = false }) }
    ensures counts { CountsByFault (D.means.faults disk.old ∷ []) (D.means.faults disk.new ∷ []) [] [] (fault_of result) }
    ensures told { OnOk result (D.means.told disk.new ≡ D.means.told disk.old) }
    ensures room { length sectors.new ≡ 32 }
{
    match find_table(disk, dump, sectors, work) {
        Ok(table) => Ok(table),
        Err(DiskFailed) => Err(Cut {
            fault: PutFault::Input,
            warned: false,
        }),
    }
}

/// Tells what a dump and its header are.
fn answer_info<D: Disk, K: Sink>(
    disk: &mut D,
    dump: &OpenDump,
    sectors: &mut [Sector],
    work: &mut Workspace,
    output: &mut K,
) -> Result<Ending, Cut>
    requires room { length sectors.old ≡ 32 }
    requires work { length work.old ≡ 32 }
    requires masks { length dump.now.known.masks.now ≡ 65536 }
    requires missing { length dump.now.known.missing.now ≡ 2048 }
    requires header { HasTold dump.now.header }
    ensures prints { (known : Known) → Shows dump.now (D.means.told disk.old) known →
        Prints K.means (AnswersTo known commands.Info) output.old output.new result }
    ensures counts { CountsByFault (D.means.faults disk.old ∷ []) (D.means.faults disk.new ∷ [])
        (K.means.faults output.old ∷ []) (K.means.faults output.new ∷ []) (fault_of result) }
{
    let table = table_of(disk, dump, sectors, work)?;
    let told = tell_info(dump, table, sectors, output);
    with_warning(by_sink(told), is_unsure(table))
}

/// Lists the volumes of a dump.
fn answer_list<D: Disk, K: Sink>(
    disk: &mut D,
    dump: &OpenDump,
    sectors: &mut [Sector],
    work: &mut Workspace,
    output: &mut K,
) -> Result<Ending, Cut>
    requires room { length sectors.old ≡ 32 }
    requires work { length work.old ≡ 32 }
    requires masks { length dump.now.known.masks.now ≡ 65536 }
    requires missing { length dump.now.known.missing.now ≡ 2048 }
    ensures prints { (known : Known) → Shows dump.now (D.means.told disk.old) known →
        Prints K.means (AnswersTo known commands.List) output.old output.new result }
    ensures counts { CountsByFault (D.means.faults disk.old ∷ []) (D.means.faults disk.new ∷ [])
        (K.means.faults output.old ∷ []) (K.means.faults output.new ∷ []) (fault_of result) }
{
    let table = table_of(disk, dump, sectors, work)?;
    let told = tell_list(dump, table, sectors, output);
    with_warning(by_sink(told), is_unsure(table))
}

/// Writes a volume of a dump, and its map.
fn answer_volume<D: Disk, K: Sink, M: Sink>(
    disk: &mut D,
    dump: &OpenDump,
    asked: AskedVolume,
    sectors: &mut [Sector],
    work: &mut Workspace,
    output: &mut K,
    sure: &mut M,
) -> Result<Ending, Cut>
    requires room { length sectors.old ≡ 32 }
    requires work { length work.old ≡ 32 }
    requires masks { length dump.now.known.masks.now ≡ 65536 }
    requires missing { length dump.now.known.missing.now ≡ 2048 }
    ensures ends { (known : Known) → Shows dump.now (D.means.told disk.old) known →
        Ends K.means M.means (AnswersTo known (commands.Volume asked.number asked.whole))
        record { output = output.old; sure = sure.old } record { output = output.new; sure = sure.new } result }
    ensures counts { CountsByFault (D.means.faults disk.old ∷ []) (D.means.faults disk.new ∷ [])
        (K.means.faults output.old ∷ M.means.faults sure.old ∷ [])
        (K.means.faults output.new ∷ M.means.faults sure.new ∷ []) (fault_of result) }
{
    let table = table_of(disk, dump, sectors, work)?;
    let put = put_volume(disk, dump, table, asked, sectors, output, sure);
    with_warning(put, is_unsure(table))
}

/// Answers what is asked of an opened dump.
pub(crate) fn answer_command<D: Disk, K: Sink, M: Sink>(
    disk: &mut D,
    dump: &OpenDump,
    command: Command,
    sectors: &mut [Sector],
    work: &mut Workspace,
    output: &mut K,
    sure: &mut M,
) -> Result<Ending, Cut>
    requires room { length sectors.old ≡ 32 }
    requires work { length work.old ≡ 32 }
    requires masks { length dump.now.known.masks.now ≡ 65536 }
    requires missing { length dump.now.known.missing.now ≡ 2048 }
    requires header { HasTold dump.now.header }
    ensures ends { (known : Known) → Shows dump.now (D.means.told disk.old) known →
        Ends K.means M.means (AnswersTo known command)
        record { output = output.old; sure = sure.old } record { output = output.new; sure = sure.new } result }
    ensures counts { CountsByFault (D.means.faults disk.old ∷ []) (D.means.faults disk.new ∷ [])
        (K.means.faults output.old ∷ M.means.faults sure.old ∷ [])
        (K.means.faults output.new ∷ M.means.faults sure.new ∷ []) (fault_of result) }
{
    match command {
        Command::Info => answer_info(disk, dump, sectors, work, output),
        Command::List => answer_list(disk, dump, sectors, work, output),
        Command::Check => with_warning(check_dump(disk, dump, sectors, output), false),
        Command::Volume { number, whole } => {
            let asked = AskedVolume { number, whole };
            answer_volume(disk, dump, asked, sectors, work, output, sure)
        }
        Command::Segments { first, last } => {
            let put = put_segments(disk, dump, first, last, sectors, output, sure);
            with_warning(put, false)
        }
    }
}
