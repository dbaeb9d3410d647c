//! The cartridge kept in the newest layout.

ghost use Rattle.command_spec.specs.declared.words.Words.TheVariants.{Upgrade};
ghost use Rattle.command_laws.specs.RunTerms.{EndsBlind};

use crate::lines::printed;
use command_spec::Status;
use drive_states::{HandFault, Unit};
use qic_base::{Sink, Tape, TapeFailed, write_text};
use tape_script::number_text;

/// Has the cartridge kept in the newest layout, and prints the version of the one before.
pub fn upgrade<T: Tape, K: Sink>(unit: &mut Unit<T>, sink: &mut K) -> Status
    ensures { EndsBlind T.means K.means Upgrade unit.old.tape unit.new.tape sink.old sink.new result }
{
    if let Err(TapeFailed) = unit.insert() {
        return Status::TapeFault;
    }
    match unit.upgrade() {
        Ok(Ok(version)) => {
            printed(write_text(
                number_text(b"upgraded from", u64::from(version)).bytes(),
                sink,
            ))
        }
        Ok(Err(HandFault::NoCartridge)) => Status::NoCartridge,
        Ok(Err(HandFault::BadPlace | HandFault::NotBlank)) => {
            unreachable!("an upgrade names no sector")
        }
        Err(TapeFailed) => Status::TapeFault,
    }
}
