//! Reports, and the wait for a seek.

ghost use Rattle.std.specs.Prelude.{◌≡◌, ◌≤◌, None, true, false};
ghost use Rattle.drive_spec.specs.Terms.{refusal_of};
ghost use Rattle.drive_spec.specs.Deck.{is_streaming, is_stopped};
ghost use Rattle.drive_spec.specs.Effects.{ticked};
ghost use Rattle.drive_spec.specs.Reports.{report_word};
ghost use Rattle.drive_spec.specs.declared.under_way.UnderWay.TheVariants.{Nothing};
ghost use Rattle.drive_states.specs.Unit.{IsSoundUnit};
ghost use Rattle.host_driver.specs.Calls.{IsReady};
ghost use Rattle.host_driver.specs.Fits.{Fits, GeneratesAll};
ghost use Rattle.host_driver.specs.Reports.{command_of, reports_until_ready, after_report};
ghost use Rattle.host_driver.specs.Train.{ready_deck};
ghost use Rattle.host_driver.specs.declared.report.Report.TheVariants.{Status};

use crate::dialogue::read_report;
use crate::host::Host;
use crate::report::Report;
use bitflags::Flags;
use drive_states::{Motion, Unit};
use qic_base::Tape;
use qic117_commands::StatusBits;

impl Host {
    /// Has the drive report a word, and leaves it as it is. No row may refuse the report: a tape that streams reports
    /// its status and its error word alone.
    #[tactic(auto, using(crate::proofs::Reporting::resting))]
    pub fn report<T: Tape>(&mut self, unit: &mut Unit<T>, kind: Report) -> u16
        requires ready { IsReady T.means self.old unit.old }
        requires taken { refusal_of unit.old.drive.deck (command_of kind) ≡ None }
        ensures word { result ≡ report_word (command_of kind) unit.old.drive.deck }
        ensures unit { unit.new
            ≡ record unit.old { drive = record unit.old.drive { line = true } } }
        ensures host { self.new ≡ self.old }
        ensures ready { IsReady T.means self.new unit.new }
    {
        read_report(unit, kind)
    }

    /// Waits until the drive is ready: the number of reports of the status until one shows that, 1 to 17.
    pub(crate) fn wait<T: Tape>(&mut self, unit: &mut Unit<T>) -> u8
        requires fits { Fits T.means self.old unit.old }
        requires idle { unit.old.drive.under_way ≡ Nothing }
        requires still { is_streaming unit.old.drive.deck.motion ≡ false }
        ensures reports { result ≡ reports_until_ready unit.old.drive.deck.motion }
        ensures most { result ≤ 17 }
        ensures deck { unit.new.drive.deck ≡ ready_deck unit.old.drive.deck }
        ensures tape { unit.new.tape ≡ unit.old.tape }
        ensures ready { IsReady T.means self.new unit.new }
    {
        let mut before = 0;
        while !is_ready(unit) {
            before += 1;
        }
        self.deck.motion = Motion::Stopped;
        before + 1
    }
}

/// Whether the drive is ready, by a report of its status.
fn is_ready<T: Tape>(unit: &mut Unit<T>) -> bool
    requires no_pulse { unit.old.drive.train ≡ 0 }
    requires idle { unit.old.drive.under_way ≡ Nothing }
    requires no_error { unit.old.drive.deck.error ≡ 0 }
    requires generates { GeneratesAll unit.old.drive.deck }
    requires sound { IsSoundUnit T.means unit.old }
    ensures ready { result ≡ is_stopped (ticked unit.old.drive.deck).motion }
    ensures drive { unit.new ≡ record unit.old { drive = after_report Status unit.old.drive } }
    ensures sound { IsSoundUnit T.means unit.new }
{
    let status = read_report(unit, Report::Status);
    StatusBits::from_bits_retain(status as u8).contains(StatusBits::STOPPED)
}
