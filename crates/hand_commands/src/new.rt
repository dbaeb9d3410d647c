//! A new cartridge put in.

ghost use Rattle.qic_base.specs.Cartridge.{IsLength};
ghost use Rattle.command_spec.specs.declared.words.Words.TheVariants.{New};
ghost use Rattle.command_laws.specs.RunTerms.{EndsBlind};

use crate::lines::printed;
use command_spec::Status;
use drive_states::Unit;
use qic_base::{Sink, Tape, TapeFailed, write_text};
use tape_script::number_text;

/// Puts in a new cartridge, never formatted.
pub fn put_in_new<T: Tape, K: Sink>(unit: &mut Unit<T>, segments: u16, sink: &mut K) -> Status
    requires { IsLength segments }
    ensures { EndsBlind T.means K.means (New segments)
        unit.old.tape unit.new.tape sink.old sink.new result }
{
    match unit.load_blank(segments) {
        Ok(()) => printed(write_text(number_text(b"blank", u64::from(segments)).bytes(), sink)),
        Err(TapeFailed) => Status::TapeFault,
    }
}
