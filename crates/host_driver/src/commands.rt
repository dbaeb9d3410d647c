//! Single commands and the values of their parameters.

ghost use Rattle.std.specs.Prelude.{◌≡◌, None, true, false, IfSome, IsSomeAnd};
ghost use Rattle.drive_spec.specs.Terms.{refusal_of, longer, begun};
ghost use Rattle.drive_spec.specs.Effects.{accepted};
ghost use Rattle.drive_spec.specs.Row.{given_more};
ghost use Rattle.drive_states.specs.Typed.{is_seeking};
ghost use Rattle.host_driver.specs.Calls.{IsReady};
ghost use Rattle.host_driver.specs.Commands.{is_plain, TakesValue};
ghost use Rattle.host_driver.specs.Fits.{Fits, parameter_of};

use crate::host::Host;
use drive_states::Unit;
use qic_base::Tape;
use qic117_commands::Command;

impl Host {
    /// Sends a command that no row refuses.
    pub(crate) fn command<T: Tape>(&mut self, unit: &mut Unit<T>, command: Command)
        requires ready { IsReady T.means self.old unit.old }
        requires plain { is_plain command ≡ true }
        requires taken { refusal_of unit.old.drive.deck command ≡ None }
        ensures deck { unit.new.drive.deck ≡ accepted command unit.old.drive.deck }
        ensures under_way { unit.new.drive.under_way ≡ begun command unit.old.drive.deck }
        ensures tape { unit.new.tape ≡ unit.old.tape }
        ensures fits { Fits T.means self.new unit.new }
    {
        self.tell(unit, command.number());
    }

    /// Gives the parameter that the drive awaits one more value.
    pub(crate) fn give<T: Tape>(&mut self, unit: &mut Unit<T>, value: u8)
        requires fits { Fits T.means self.old unit.old }
        requires still { is_seeking unit.old.drive.deck.motion ≡ false }
        requires awaited { IsSomeAnd (parameter_of unit.old.drive.under_way) (λ a.
            TakesValue a value) }
        ensures given { IfSome (parameter_of unit.old.drive.under_way) (λ a. unit.new.drive
            ≡ given_more (record unit.old.drive { line = false; train = 0 }) (longer a value)) }
        ensures tape { unit.new.tape ≡ unit.old.tape }
        ensures fits { Fits T.means self.new unit.new }
    {
        self.tell(unit, Command::ReportNextBit.number() + value);
    }
}
