//! How the host follows the drive: by the drive's own state table, for each train that it sends.

ghost use Rattle.std.specs.Prelude.{◌≡◌, ◌<◌, ◌≤◌, ◌-◌, IfSome};
ghost use Rattle.drive_spec.specs.Parameters.{parameter_trains, parameter_values};
ghost use Rattle.drive_spec.specs.declared.under_way.UnderWay.TheVariants.{Awaited};
ghost use Rattle.drive_states.specs.Sound.{IsParameter, IsSound, IsUnderWay};
ghost use Rattle.host_driver.specs.Followed.{followed, after_value};

use crate::host::Host;
use drive_states::Parameter;
use drive_states::deck::is_streaming;
use drive_states::effects::{accepted, given, run_on, ticked};
use drive_states::under_way::{is_whole, longer};
use qic117_commands::command_of;

impl Host {
    /// What the host remembers after a train that the drive took.
    pub(crate) fn follow(&mut self, pulses: u8)
        requires sound { IsSound self.old.deck }
        requires awaited { IfSome self.old.awaited (λ a. IsUnderWay self.old.deck (Awaited a)) }
        requires value { IfSome self.old.awaited (λ a. 1 ≤ pulses →
            (2 ≤ pulses) × (pulses - 2 < parameter_values a.command)) }
        ensures { self.new ≡ followed self.old pulses }
    {
        self.deck = ticked(self.deck);
        if pulses == 0 {
            if is_streaming(&self.deck) {
                self.deck = run_on(self.deck);
            }
        } else if let Some(parameter) = self.awaited {
            self.follow_value(longer(parameter, pulses - 2));
        } else if let Some(command) = command_of(pulses) {
            self.deck = accepted(self.deck, command);
            let parameter = Parameter {
                command,
                taken: 0,
                value: 0,
            };
            if !is_whole(&parameter) {
                self.awaited = Some(parameter);
            }
        }
    }

    /// What it remembers after one more value of a parameter.
    fn follow_value(&mut self, parameter: Parameter)
        requires { parameter.taken ≡ parameter_trains parameter.command →
            IsParameter parameter.command parameter.value }
        ensures { self.new ≡ after_value self.old parameter }
    {
        if is_whole(&parameter) {
            self.deck = given(self.deck, parameter.command, parameter.value);
            self.awaited = None;
        } else {
            self.awaited = Some(parameter);
        }
    }
}
