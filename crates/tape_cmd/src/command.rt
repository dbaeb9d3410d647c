//! The top calls, and the way to each command.

ghost use Rattle.std.specs.Prelude.{◌≡◌, ◌≢◌, ◌⊎◌, ℕ, List, IfOk, OnErr, true, false, map, string_bytes};
ghost use Rattle.command_spec.specs.declared.words.Words.TheVariants.{Append, Pulses, Script};
ghost use Rattle.command_spec.specs.Machine.{HasValues, Spells, CommandEnds};
ghost use Rattle.tape_cmd.specs.Reading.{ReadsCommand};
ghost use Rattle.command_laws.specs.RunTerms.{EndsBlind};
ghost use Rattle.command_spec.specs.Promises.{Promises};
ghost use Rattle.command_spec.specs.Commands.{traits_of};

mod make;
mod script;

use crate::Status;
use crate::room::Memory;
use bad_sector_map::BadMap;
use drive_states::Unit;
use hand_commands::{defect, lose, new, protect, pulses, upgrade};
use host_commands::{append, check, format, info, list, restore, room, scrub};
use qic_base::{NoMemory, Sink, Source, Tape};
use segment_io::Workspace;
use std::alloc::Global;
use tape_script::{BadWords, Words, read_words};
use volume_store::Room;
use volume_table::Table;

/// Carries out a command, with each of its values in its range. It has the working objects from the memory, and does so
/// before anything else.
fn carry_out<M: Memory + Drop, T: Tape, S: Source, K: Sink>(
    memory: M,
    command: &Words,
    unit: &mut Unit<T>,
    source: &mut S,
    sink: &mut K,
) -> Result<Status, M::Want>
    requires values { HasValues command.now }
    ensures ends { IfOk result (λ status. CommandEnds T.means S.means K.means command.now
        record { tape = unit.old.tape; source = source.old; sink = sink.old }
        record { tape = unit.new.tape; source = source.new; sink = sink.new } status) }
    ensures want { OnErr result ((traits_of command.now).memory ≡ true) }
    ensures untouched { OnErr result
        ((unit.new ≡ unit.old) × (source.new ≡ source.old) × (sink.new ≡ sink.old)) }
    ensures source { (traits_of command.now).reads ≡ false → source.new ≡ source.old }
    ensures kept { S.means.keeps source.old source.new }
{
    match *command {
        Words::Append { ref name, date } => Ok(append::append(
            unit,
            memory.room()?,
            name,
            date,
            source,
            sink,
        )),
        Words::Pulses => Ok(pulses::pulses(unit, source, sink)),
        Words::Script => Ok(script::script(unit, memory.room()?, source, sink)),
        _ => carry_out_blind(memory, command, unit, sink),
    }
}

/// Carries out a command that reads no input.
fn carry_out_blind<M: Memory + Drop, T: Tape, K: Sink>(
    memory: M,
    command: &Words,
    unit: &mut Unit<T>,
    sink: &mut K,
) -> Result<Status, M::Want>
    requires values { HasValues command.now }
    requires no_append { (name : List ℕ) (date : ℕ) → command.now ≢ Append name date }
    requires no_pulses { command.now ≢ Pulses }
    requires no_script { command.now ≢ Script }
    ensures blind { (traits_of command.now).reads ≡ false }
    ensures ends { IfOk result (λ status. EndsBlind T.means K.means command.now
        unit.old.tape unit.new.tape sink.old sink.new status) }
    ensures want { OnErr result ((traits_of command.now).memory ≡ true) }
    ensures untouched { OnErr result ((unit.new ≡ unit.old) × (sink.new ≡ sink.old)) }
{
    match *command {
        Words::New { .. }
        | Words::Defect { .. }
        | Words::Lose { .. }
        | Words::Protect { .. }
        | Words::Upgrade => Ok(carry_out_by_hand(command, unit, sink)),
        _ => Ok(carry_out_in(memory.room()?, command, unit, sink)),
    }
}

/// Carries out a command of a person's hand, which takes no memory.
fn carry_out_by_hand<T: Tape, K: Sink>(command: &Words, unit: &mut Unit<T>, sink: &mut K) -> Status
    requires values { HasValues command.now }
    requires blind { (traits_of command.now).reads ≡ false }
    requires bare { (traits_of command.now).memory ≡ false }
    ensures { EndsBlind T.means K.means command.now
        unit.old.tape unit.new.tape sink.old sink.new result }
{
    match *command {
        Words::New { segments } => new::put_in_new(unit, segments, sink),
        Words::Defect { segment, sector } => defect::spoil(unit, segment, sector, sink),
        Words::Lose { segment, sector } => lose::lose(unit, segment, sector, sink),
        Words::Protect { on } => protect::protect(unit, on, sink),
        Words::Upgrade => upgrade::upgrade(unit, sink),
        _ => unreachable!("a command that takes memory or reads its input"),
    }
}

/// Carries out a command that reads no input in these working objects.
fn carry_out_in<T: Tape, K: Sink>(
    mut room: Room,
    command: &Words,
    unit: &mut Unit<T>,
    sink: &mut K,
) -> Status
    requires values { HasValues command.now }
    requires blind { (traits_of command.now).reads ≡ false }
    requires room { (traits_of command.now).memory ≡ true }
    ensures { EndsBlind T.means K.means command.now
        unit.old.tape unit.new.tape sink.old sink.new result }
{
    match *command {
        Words::Format { ref label, date } => {
            format::format_cartridge(unit, &mut room, label, date, sink)
        }
        Words::Info => info::info(unit, room, sink),
        Words::List => list::list(unit, room, sink),
        Words::Room => room::tell_room(unit, room, sink),
        Words::Check => check::check(unit, room, sink),
        Words::Restore { number } => restore::restore(unit, room, number, sink),
        Words::Scrub => scrub::scrub(unit, room, sink),
        Words::ScrubDeep => scrub::scrub_deep(unit, room, sink),
        Words::Make { seed, count } => make::make(unit, room, seed, count, sink),
        _ => unreachable!("a command of a person's hand, or one that reads its input"),
    }
}

/// The command of the words.
fn read_command(words: &Vec<String>) -> Option<Words>
    ensures { ReadsCommand (map string_bytes words.now.items) result }
{
    match read_words(words) {
        Ok(command) => Some(command),
        Err(BadWords) => None,
    }
}

/// Carries out a command in the working objects that are handed to it: `run`, once its memory is there. No call takes
/// memory.
pub fn run_ready<T: Tape, S: Source, K: Sink>(
    words: &Words,
    work: Workspace,
    map: BadMap,
    table: Table,
    unit: &mut Unit<T>,
    source: &mut S,
    sink: &mut K,
) -> Status
    requires values { HasValues words.now }
    ensures ends { CommandEnds T.means S.means K.means words.now
        record { tape = unit.old.tape; source = source.old; sink = sink.old }
        record { tape = unit.new.tape; source = source.new; sink = sink.new } result }
    ensures promises { (spelled : List (List ℕ)) → Spells spelled words.now →
        Promises T.means S.means K.means spelled
        record { tape = unit.old.tape; source = source.old; sink = sink.old }
        record { tape = unit.new.tape; source = source.new; sink = sink.new } result }
    ensures usage { result ≢ Status.Usage }
    ensures memory { result ≢ Status.NoMemory }
{
    let Ok(status) = carry_out(Room { work, map, table }, words, unit, source, sink);
    status
}

/// Carries out the command that the words name. It reaches the tape by the unit's cable and its hand calls alone, reads
/// the input from `source` and prints on `sink`. The memory that it takes it takes before it touches any of them.
pub fn run<T: Tape, S: Source, K: Sink>(
    alloc: Global,
    words: &Vec<String>,
    unit: &mut Unit<T>,
    source: &mut S,
    sink: &mut K,
) -> Status
    ensures promises { Promises T.means S.means K.means (map string_bytes words.now.items)
        record { tape = unit.old.tape; source = source.old; sink = sink.old }
        record { tape = unit.new.tape; source = source.new; sink = sink.new } result }
    ensures untouched { (result ≡ Status.Usage) ⊎ (result ≡ Status.NoMemory) →
        (unit.new ≡ unit.old) × (source.new ≡ source.old) × (sink.new ≡ sink.old) }
{
    let Some(command) = read_command(words) else {
        return Status::Usage;
    };
    match carry_out(alloc, &command, unit, source, sink) {
        Ok(status) => status,
        Err(NoMemory) => Status::NoMemory,
    }
}
