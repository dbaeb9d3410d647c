//! Trains of step pulses from a source, and the line level that each leaves.

ghost use Rattle.command_spec.specs.declared.words.Words.TheVariants.{Pulses};
ghost use Rattle.command_spec.specs.Machine.{CommandEnds};

mod ending;
mod fault;
mod lines;
mod run;
mod sending;

use command_spec::Status;
use drive_states::Unit;
pub use fault::PulseFault;
use qic_base::{Sink, Source, Tape};
pub use run::run_pulses;

/// Sends the trains of the source, and prints the level that each leaves as it goes.
pub fn pulses<T: Tape, S: Source, K: Sink>(
    unit: &mut Unit<T>,
    source: &mut S,
    sink: &mut K,
) -> Status
    ensures ends { CommandEnds T.means S.means K.means Pulses
        record { tape = unit.old.tape; source = source.old; sink = sink.old }
        record { tape = unit.new.tape; source = source.new; sink = sink.new } result }
    ensures kept { S.means.keeps source.old source.new }
{
    match run_pulses(unit, source, sink) {
        Ok(()) => Status::Done,
        Err(PulseFault::Script { line, place }) => Status::ScriptFault { line, place },
        Err(PulseFault::Source) => Status::SourceFault,
        Err(PulseFault::Sink) => Status::SinkFault,
        Err(PulseFault::Tape) => Status::TapeFault,
    }
}
