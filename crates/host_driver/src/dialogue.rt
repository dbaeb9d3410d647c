//! Trains and reports, as the cable carries them.

ghost use Rattle.std.specs.Prelude.{◌≡◌, [], IsOk, OnOk, OnErr};
ghost use Rattle.qic_base.specs.TapeCalls.{Does};
ghost use Rattle.drive_spec.specs.Terms.{refusal_of};
ghost use Rattle.drive_spec.specs.Effects.{ticked};
ghost use Rattle.drive_spec.specs.declared.under_way.UnderWay.TheVariants.{Nothing};
ghost use Rattle.drive_states.specs.Unit.{IsSoundUnit};
ghost use Rattle.host_driver.specs.Fits.{GeneratesAll};
ghost use Rattle.host_driver.specs.Reports.{command_of, reported_word, after_report};
ghost use Rattle.drive_spec.specs.Row.{pulsed_row};
ghost use Rattle.drive_spec.specs.Steps.{train_changes};
ghost use Rattle.host_driver.specs.Train.{TakesTrain};
ghost use Rattle.drive_states.specs.Unreferenced.{without_reference};

use crate::report::Report;
use drive_states::Unit;
use qic_base::{Tape, TapeFailed};
use qic117_commands::{Collector, Command};

/// Sends a train of pulses, and a gap. Each train of the host is ended here.
#[tactic(auto, unfolding(drive_spec::specs::Row::pulsed_row, drive_spec::specs::Steps::train_changes))]
pub fn send_train<T: Tape>(unit: &mut Unit<T>, pulses: u8) -> Result<(), TapeFailed>
    requires no_pulse { unit.old.drive.train ≡ 0 }
    requires taken { TakesTrain unit.old.drive pulses }
    ensures row { OnOk result (unit.new.drive ≡ pulsed_row unit.old.drive pulses) }
    ensures failed { OnErr result
        (unit.new.drive ≡ without_reference (pulsed_row unit.old.drive pulses)) }
    ensures did { Does T.means unit.old.tape unit.new.tape
        (train_changes unit.old.drive pulses) result }
    ensures ok { train_changes unit.old.drive pulses ≡ [] → IsOk result }
    ensures untouched { train_changes unit.old.drive pulses ≡ [] →
        unit.new.tape ≡ unit.old.tape }
    ensures size { T.means.size unit.new.tape ≡ T.means.size unit.old.tape }
    ensures sound { IsSoundUnit T.means unit.new }
{
    for _pulse in 0..pulses {
        unit.step();
    }
    unit.gap()
}

/// Sends a train that shows a level, and gives it.
#[tactic(auto, using(crate::proofs::Trains::same_tape))]
fn sample<T: Tape>(unit: &mut Unit<T>, pulses: u8) -> bool
    requires no_pulse { unit.old.drive.train ≡ 0 }
    requires taken { TakesTrain unit.old.drive pulses }
    requires reads { train_changes unit.old.drive pulses ≡ [] }
    ensures row { unit.new ≡ record unit.old { drive = pulsed_row unit.old.drive pulses } }
    ensures level { result ≡ unit.new.drive.line }
    ensures sound { IsSoundUnit T.means unit.new }
{
    match send_train(unit, pulses) {
        Ok(()) => unit.line(),
        Err(_) => unreachable!("the tape has nothing to fail at"),
    }
}

/// Has the drive report a word.
pub fn read_report<T: Tape>(unit: &mut Unit<T>, kind: Report) -> u16
    requires no_pulse { unit.old.drive.train ≡ 0 }
    requires idle { unit.old.drive.under_way ≡ Nothing }
    requires no_error { unit.old.drive.deck.error ≡ 0 }
    requires generates { GeneratesAll unit.old.drive.deck }
    requires sound { IsSoundUnit T.means unit.old }
    requires taken { refusal_of (ticked unit.old.drive.deck) (command_of kind) ≡ None }
    ensures word { result ≡ reported_word kind unit.old.drive }
    ensures drive { unit.new ≡ record unit.old { drive = after_report kind unit.old.drive } }
    ensures sound { IsSoundUnit T.means unit.new }
{
    sample(unit, kind.command().number());
    let width = kind.width();
    let mut collector = Collector::new(width);
    for _level in 0..width + 1 {
        collector.push(sample(unit, Command::ReportNextBit.number()));
    }
    match collector.word() {
        Some(word) => word,
        None => unreachable!("the last level of a report is 1"),
    }
}
