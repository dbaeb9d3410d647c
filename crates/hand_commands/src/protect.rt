//! The protect switch moved.

ghost use Rattle.command_spec.specs.declared.words.Words.TheVariants.{Protect};
ghost use Rattle.command_laws.specs.RunTerms.{EndsBlind};

use crate::lines::{printed, protected_text};
use command_spec::Status;
use drive_states::{HandFault, Unit};
use qic_base::{Sink, Tape, TapeFailed, write_text};

/// Sets or clears the protect mark.
pub fn protect<T: Tape, K: Sink>(unit: &mut Unit<T>, on: bool, sink: &mut K) -> Status
    ensures { EndsBlind T.means K.means (Protect on)
        unit.old.tape unit.new.tape sink.old sink.new result }
{
    if let Err(TapeFailed) = unit.insert() {
        return Status::TapeFault;
    }
    match unit.protect(on) {
        Ok(Ok(())) => printed(write_text(protected_text(on), sink)),
        Ok(Err(HandFault::NoCartridge)) => Status::NoCartridge,
        Ok(Err(HandFault::BadPlace | HandFault::NotBlank)) => {
            unreachable!("the switch is no sector")
        }
        Err(TapeFailed) => Status::TapeFault,
    }
}
