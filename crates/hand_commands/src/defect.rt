//! A sector made a defect.

ghost use Rattle.command_spec.specs.declared.words.Words.TheVariants.{Defect};
ghost use Rattle.command_laws.specs.RunTerms.{EndsBlind};

use crate::lines::printed;
use command_spec::Status;
use drive_states::{HandFault, Unit};
use qic_base::{Sink, Tape, TapeFailed, write_text};
use tape_script::place_text;

/// Makes a defect of a sector that was never formatted.
pub fn spoil<T: Tape, K: Sink>(
    unit: &mut Unit<T>,
    segment: u32,
    sector: u32,
    sink: &mut K,
) -> Status
    ensures { EndsBlind T.means K.means (Defect segment sector)
        unit.old.tape unit.new.tape sink.old sink.new result }
{
    if let Err(TapeFailed) = unit.insert() {
        return Status::TapeFault;
    }
    match unit.spoil(segment, sector) {
        Ok(Ok(())) => printed(write_text(
            place_text(b"defect", u64::from(segment), u64::from(sector)).bytes(),
            sink,
        )),
        Ok(Err(HandFault::NoCartridge)) => Status::NoCartridge,
        Ok(Err(HandFault::BadPlace)) => Status::BadPlace,
        Ok(Err(HandFault::NotBlank)) => Status::NotBlank,
        Err(TapeFailed) => Status::TapeFault,
    }
}
