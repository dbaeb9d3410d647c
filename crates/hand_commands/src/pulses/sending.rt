//! A train is sent; the line of the level that it leaves.

ghost use Rattle.std.specs.Prelude.{◌≡◌, OnOk};
ghost use Rattle.qic_base.specs.TapeCalls.{Does};
ghost use Rattle.drive_spec.specs.Row.{pulsed_row};
ghost use Rattle.drive_spec.specs.Steps.{train_changes};
ghost use Rattle.command_laws.specs.PulseRuns.{level_line};

use drive_states::Unit;
use qic_base::{Tape, TapeFailed};

/// The line of a level.
pub fn level_text(level: bool) -> &'static [u8]
    ensures { result.now ≡ level_line level }
{
    if level { b"1\n" } else { b"0\n" }
}

/// Sends so many pulses and a gap. Each refusal of the drive is a latched error code.
pub fn send_train<T: Tape>(unit: &mut Unit<T>, train: u8) -> Result<(), TapeFailed>
    requires no_pulse { unit.old.drive.train ≡ 0 }
    ensures row { OnOk result (unit.new.drive ≡ pulsed_row unit.old.drive train) }
    ensures did { Does T.means unit.old.tape unit.new.tape
        (train_changes unit.old.drive train) result }
{
    for _pulse in 0..train {
        unit.step();
    }
    unit.gap()
}
