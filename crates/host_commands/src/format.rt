//! A cartridge formatted.

ghost use Rattle.std.specs.Prelude.{◌≡◌};
ghost use Rattle.command_spec.specs.declared.words.Words.TheVariants.{Format};
ghost use Rattle.host_commands.specs.Format.{format_status};
ghost use Rattle.command_laws.specs.RunTerms.{EndsBlind};

use crate::opening::start;
use command_spec::Status;
use drive_states::Unit;
use formatter::{FormatFault, format};
use hand_commands::printed;
use qic_base::{Name, Sink, Tape, write_text};
use tape_script::place_text;
use volume_store::Room;

/// Formats the cartridge, and prints how many segments and how many bad sectors it has.
pub fn format_cartridge<T: Tape, K: Sink>(
    unit: &mut Unit<T>,
    room: &mut Room,
    label: &Name,
    date: u32,
    sink: &mut K,
) -> Status
    ensures { EndsBlind T.means K.means (Format label.now date)
        unit.old.tape unit.new.tape sink.old sink.new result }
{
    let mut host = match start(unit) {
        Ok(host) => host,
        Err(status) => return status,
    };
    match format(&mut host, unit, &mut room.work, &mut room.map, label, date) {
        Ok(report) => {
            let line = place_text(
                b"formatted",
                u64::from(report.segments),
                u64::from(report.bad),
            );
            printed(write_text(line.bytes(), sink))
        }
        Err(fault) => status_of_format(fault),
    }
}

fn status_of_format(fault: FormatFault) -> Status
    ensures { result ≡ format_status fault }
{
    match fault {
        FormatFault::Protected => Status::Protected,
        FormatFault::DefectInFront { segment } => Status::DefectInFront { segment },
        FormatFault::Tape => Status::TapeFault,
    }
}
