//! The drive and its end of the cable: what a train does.

ghost use Rattle.std.specs.Prelude.{◌≡◌, ◌≢◌, ◌<◌, ◌≤◌, ◌-◌, [], ◌∷◌, None, OnOk, OnErr, true};
ghost use Rattle.qic_base.specs.Step.{SetReferenced};
ghost use Rattle.qic_base.specs.TapeCalls.{Does};
ghost use Rattle.qic117_commands.specs.Commands.{command_at};
ghost use Rattle.drive_spec.specs.Terms.{refusal_of, obeying, obeyed, idled, steps_once_ticked};
ghost use Rattle.drive_spec.specs.Deck.{is_streaming};
ghost use Rattle.drive_spec.specs.Effects.{ticked, reset, given};
ghost use Rattle.drive_spec.specs.Parameters.{parameter_trains};
ghost use Rattle.drive_spec.specs.Row.{by_command, taking, showing, moved_on, after_gap, latched};
ghost use Rattle.drive_spec.specs.Steps.{reference_steps, command_steps, gap_steps};
ghost use Rattle.drive_states.specs.AnyDrive.{drive_of};
ghost use Rattle.drive_states.specs.Cable.{record_of, unit_of};
ghost use Rattle.drive_states.specs.Sound.{IsParameter, IsUnderWay, IsSoundRecord};
ghost use Rattle.drive_states.specs.Reach.{IsFormatting, Formats};
ghost use Rattle.drive_states.specs.Unreferenced.{without_reference};

use crate::any_drive::AnyDrive;
use crate::deck::{ends_early, is_seeking, is_streaming, refusal};
use crate::effects::error_word;
use crate::fault::FdcFault;
use crate::under_way::{admits, begun, fault, is_whole, longer, report_width};
use core::mem::{replace, replace_with};
use drive_spec::{Parameter, UnderWay};
use qic_base::{Tape, TapeFailed};
use qic117_commands::{Command, ErrorCode, Shifter, Shown, command_of};

/// A drive and its end of the cable.
#[derive(Drop)]
pub struct Dialogue<T: Tape> {
    pub drive: AnyDrive<T>,
    /// The pulses counted since the last gap.
    pub train: u8,
    /// The level that the last train left.
    pub line: bool,
    pub under_way: UnderWay,
}

fn ticked<T: Tape>(drive: AnyDrive<T>, _: ()) -> (AnyDrive<T>, ())
    ensures { drive_of result.0 ≡ record (drive_of drive) { deck = ticked (drive_of drive).deck } }
{
    (drive.tick(), ())
}

/// A gap of the drive's seek. Only a drive that seeks is moved, by value; in most gaps it stands.
fn tick<T: Tape>(drive: &mut AnyDrive<T>)
    ensures { drive_of drive.new ≡ record (drive_of drive.old) { deck = ticked (drive_of drive.old).deck } }
{
    if is_seeking(&drive.deck()) {
        replace_with(drive, (), ticked);
    }
}

fn was_reset<T: Tape>(drive: AnyDrive<T>, _: ()) -> (AnyDrive<T>, ())
    ensures { drive_of result.0 ≡ record (drive_of drive) { deck = reset (drive_of drive).deck } }
{
    (drive.reset(), ())
}

fn given<T: Tape>(drive: AnyDrive<T>, parameter: Parameter) -> (AnyDrive<T>, ())
    requires taken { refusal_of (drive_of drive).deck parameter.command ≡ None }
    requires trains { 0 < parameter_trains parameter.command }
    requires parameter { IsParameter parameter.command parameter.value }
    ensures { drive_of result.0 ≡ record (drive_of drive) {
      deck = given parameter.command parameter.value (drive_of drive).deck;
    } }
{
    (drive.give(parameter.command, parameter.value), ())
}

impl<T: Tape> Dialogue<T> {
    /// An error is latched, and ends what is under way.
    fn latch(&mut self, code: ErrorCode, command: u8)
        ensures { unit_of self.new ≡ record (unit_of self.old) {
          drive = latched (record_of self.old) code command;
        } }
    {
        let fresh = self.drive.deck().fresh;
        self.drive.set_error(error_word(code, command), fresh);
        self.under_way = UnderWay::Nothing;
    }

    /// A command that no row refuses is obeyed.
    fn accept(&mut self, command: Command) -> Result<(), TapeFailed>
        requires { refusal_of (record_of self.old).deck command ≡ None }
        ensures did { Does T.means (unit_of self.old).tape (unit_of self.new).tape (reference_steps command) result }
        ensures ok { OnOk result (record_of self.new ≡ obeying (record_of self.old) command) }
        ensures failed { OnErr result ((reference_steps command ≡ SetReferenced ∷ [])
            × (record_of self.new ≡ without_reference (obeying (record_of self.old) command))) }
        ensures untouched { reference_steps command ≡ [] → (unit_of self.new).tape ≡ (unit_of self.old).tape }
        ensures over { OnErr result (self.new.under_way ≡ UnderWay.Nothing) }
        ensures size { T.means.size (unit_of self.new).tape ≡ T.means.size (unit_of self.old).tape }
    {
        let deck = self.drive.deck();
        self.line = report_width(command) > 0;
        self.under_way = begun(command, &deck);
        replace_with(&mut self.drive, command, AnyDrive::obey)
    }

    /// A command of its own, by its number.
    fn command(&mut self, train: u8) -> Result<(), TapeFailed>
        ensures did { Does T.means (unit_of self.old).tape (unit_of self.new).tape
            (command_steps (record_of self.old).deck (command_at train)) result }
        ensures ok { OnOk result (record_of self.new
            ≡ by_command (record_of self.old) train (command_at train)) }
        ensures failed { OnErr result ((command_steps (record_of self.old).deck (command_at train)
            ≡ SetReferenced ∷ []) × (record_of self.new
            ≡ without_reference (by_command (record_of self.old) train (command_at train)))) }
        ensures untouched { command_steps (record_of self.old).deck (command_at train) ≡ [] →
            (unit_of self.new).tape ≡ (unit_of self.old).tape }
        ensures over { OnErr result (self.new.under_way ≡ UnderWay.Nothing) }
        ensures size { T.means.size (unit_of self.new).tape ≡ T.means.size (unit_of self.old).tape }
    {
        let Some(command) = command_of(train) else {
            self.latch(ErrorCode::UndefinedCommand, train);
            return Ok(());
        };
        match refusal(&self.drive.deck(), command) {
            Some(code) => {
                self.latch(code, command.number());
                Ok(())
            }
            None => self.accept(command),
        }
    }

    /// A value of a parameter.
    fn take(&mut self, parameter: Parameter, value: u8)
        requires { IsUnderWay (record_of self.old).deck (UnderWay.Awaited parameter) }
        ensures { unit_of self.new ≡ record (unit_of self.old) {
          drive = taking (record_of self.old) parameter value;
        } }
    {
        if !admits(&parameter, value) {
            self.latch(fault(&parameter), parameter.command.number());
            return;
        }
        let parameter = longer(parameter, value);
        if is_whole(&parameter) {
            replace_with(&mut self.drive, parameter, given);
            self.under_way = UnderWay::Nothing;
        } else {
            self.under_way = UnderWay::Awaited(parameter);
        }
    }

    /// The next level of a report.
    fn show(&mut self, mut report: Shifter)
        requires { report ≢ [] }
        ensures { unit_of self.new ≡ record (unit_of self.old) {
          drive = showing (record_of self.old) report;
        } }
    {
        match report.next() {
            Shown::Bit(level) => {
                self.line = level;
                self.under_way = UnderWay::Report(report);
            }
            Shown::Final => {
                self.line = true;
                self.under_way = UnderWay::Nothing;
            }
            Shown::Past => unreachable!("a report under way has more to show"),
        }
    }

    /// A train of one pulse or more.
    fn obey(&mut self, train: u8) -> Result<(), TapeFailed>
        requires train { 1 ≤ train }
        requires sound { IsSoundRecord (record_of self.old) }
        ensures did { Does T.means (unit_of self.old).tape (unit_of self.new).tape
            (steps_once_ticked (record_of self.old) train) result }
        ensures ok { OnOk result (record_of self.new ≡ obeyed (record_of self.old) train) }
        ensures failed { OnErr result ((steps_once_ticked (record_of self.old) train ≡ SetReferenced ∷ [])
            × (record_of self.new ≡ without_reference (obeyed (record_of self.old) train))) }
        ensures untouched { steps_once_ticked (record_of self.old) train ≡ [] →
            (unit_of self.new).tape ≡ (unit_of self.old).tape }
        ensures over { OnErr result (self.new.under_way ≡ UnderWay.Nothing) }
        ensures size { T.means.size (unit_of self.new).tape ≡ T.means.size (unit_of self.old).tape }
    {
        if train == Command::Reset.number() {
            replace_with(&mut self.drive, (), was_reset);
            self.under_way = UnderWay::Nothing;
            return Ok(());
        }
        match replace(&mut self.under_way, UnderWay::Nothing) {
            UnderWay::Awaited(parameter) => self.take(parameter, train - 2),
            UnderWay::Report(report) => {
                if train == Command::ReportNextBit.number() {
                    self.show(report);
                } else {
                    self.latch(ErrorCode::IllegalInReport, train);
                }
            }
            UnderWay::Nothing => return self.command(train),
        }
        Ok(())
    }

    /// A gap after no pulse.
    fn idle(&mut self)
        requires { IsSoundRecord (record_of self.old) }
        ensures { unit_of self.new ≡ record (unit_of self.old) { drive = idled (record_of self.old) } }
    {
        if is_streaming(&self.drive.deck()) {
            self.move_on();
        }
    }

    /// The tape that streams has run on by a segment; an error that this latches ends what is under way.
    pub fn move_on(&mut self)
        requires { is_streaming (record_of self.old).deck.motion ≡ true }
        ensures { unit_of self.new ≡ record (unit_of self.old) { drive = moved_on (record_of self.old) } }
    {
        if ends_early(&self.drive.deck()) {
            self.under_way = UnderWay::Nothing;
        }
        self.drive.run_on();
    }

    /// Ends the train of pulses and carries out its row.
    pub fn gap(&mut self) -> Result<(), TapeFailed>
        requires { IsSoundRecord (record_of self.old) }
        ensures did { Does T.means (unit_of self.old).tape (unit_of self.new).tape
            (gap_steps (record_of self.old)) result }
        ensures ok { OnOk result (record_of self.new ≡ after_gap (record_of self.old)) }
        ensures failed { OnErr result ((gap_steps (record_of self.old) ≡ SetReferenced ∷ [])
            × (record_of self.new ≡ without_reference (after_gap (record_of self.old)))) }
        ensures untouched { gap_steps (record_of self.old) ≡ [] →
            (unit_of self.new).tape ≡ (unit_of self.old).tape }
        ensures over { OnErr result (self.new.under_way ≡ UnderWay.Nothing) }
        ensures size { T.means.size (unit_of self.new).tape ≡ T.means.size (unit_of self.old).tape }
    {
        tick(&mut self.drive);
        let train = replace(&mut self.train, 0);
        if train == 0 {
            self.idle();
            return Ok(());
        }
        self.line = false;
        self.obey(train)
    }

    /// Formats the segment under the head, and the head moves on.
    pub fn format_segment(&mut self) -> Result<Result<(), FdcFault>, TapeFailed>
        ensures unreached { ¬ (IsFormatting (record_of self.old).deck) →
            (result ≡ Ok (Err FdcFault.NoAddress)) × (self.new ≡ self.old) }
        ensures reached { IsFormatting (record_of self.old).deck →
            Formats T.means (drive_of self.old.drive) (drive_of self.new.drive) result }
        ensures moved { result ≡ Ok (Ok tt) → record_of self.new ≡ moved_on (record_of self.old) }
        ensures stayed { result ≢ Ok (Ok tt) → record_of self.new ≡ record_of self.old }
        ensures size { T.means.size (unit_of self.new).tape ≡ T.means.size (unit_of self.old).tape }
    {
        let early = ends_early(&self.drive.deck());
        match self.drive.format_segment() {
            Ok(Ok(())) => {
                if early {
                    self.under_way = UnderWay::Nothing;
                }
                Ok(Ok(()))
            }
            Ok(Err(fault)) => Ok(Err(fault)),
            Err(TapeFailed) => Err(TapeFailed),
        }
    }
}
