//! The command line of the second program, as `clap` has it.

ghost use Rattle.std.specs.Prelude.{IfOk};
ghost use Rattle.program_words.specs.GapOption.{IsGapOption, IsTraceCommand};

use clap::{Arg, ArgAction, Command};
use std::alloc::{AllocError, Global};

/// The option `--gap`, a number of microseconds from 1 to 1,000,000; 1000 where it isn't given.
fn gap_option<'a>(alloc: Global) -> Arg<'a>
    ensures { IsGapOption result }
{
    let microseconds = clap::value_parser!(u32).range(1..=1_000_000);
    let plain = Arg::new(alloc, "gap")
        .long("gap")
        .action(ArgAction::Set)
        .default_value("1000");
    let option = plain.value_parser(microseconds);
    option
}

/// The command with that option.
pub fn trace_command<'a>(alloc: Global) -> Result<Command<'a>, AllocError>
    ensures { IfOk result IsTraceCommand }
{
    Command::new(alloc, "pulse_trace").arg(gap_option(alloc))
}
