//! What the host remembers, its start, and the trains that it sends.

ghost use Rattle.std.specs.Prelude.{◌≡◌, [], None, Some, IsOk, IfOk, IfSome, OnOk, OnErr};
ghost use Rattle.qic_base.specs.TapeCalls.{Does};
ghost use Rattle.drive_spec.specs.Terms.{is_protected, is_referenced};
ghost use Rattle.host_driver.specs.Calls.{IsReady};
ghost use Rattle.host_driver.specs.Fits.{Fits, AgreesWithTape, segments_of, deck_of};
ghost use Rattle.host_driver.specs.Starts.{Starts, KnowsTold, KnowsSize, started_host};
ghost use Rattle.drive_spec.specs.Row.{pulsed_row};
ghost use Rattle.drive_spec.specs.Steps.{train_changes};
ghost use Rattle.host_driver.specs.Train.{TakesTrain};
ghost use Rattle.drive_states.specs.Unreferenced.{without_reference};

use crate::dialogue::{read_report, send_train};
use crate::report::Report;
use bitflags::Flags;
use drive_states::deck::{is_protected, power_on_deck};
use drive_states::effects::unreferenced;
use drive_states::{Deck, Parameter, Unit};
use qic_base::{Tape, TapeFailed, TapeInfo};
use qic117_commands::StatusBits;
use tape_geometry::Geometry;

/// What a host has learnt of a drive by reports, and what it remembers of the drive's place and mode. It doesn't hold
/// the unit: each call is handed the unit that it drives.
#[derive(Clone, Copy)]
pub struct Host {
    pub(crate) geometry: Geometry,
    pub(crate) deck: Deck,
    /// The parameter that the drive awaits.
    pub(crate) awaited: Option<Parameter>,
}

impl Host {
    /// Puts the cartridge in, and learns by the reports of the status, the error word and the format segments what it
    /// is; None where the drive has none.
    pub fn start<T: Tape>(unit: &mut Unit<T>) -> Result<Option<Host>, TapeFailed>
        ensures did { Starts T.means unit.old unit.new result }
        ensures ready { IfOk result (λ found. IfSome found (λ host. IsReady T.means host unit.new)) }
        // None comes exactly where the drive knows of none: where the tape tells what it holds, where that is none.
        ensures absent { result ≡ Ok None → unit.new.drive.deck.cartridge ≡ None }
        ensures told { OnOk result (KnowsTold T.means unit.new) }
        ensures size { OnOk result (KnowsSize T.means unit.new) }
        ensures agrees { IfOk result (λ found. IfSome found (λ host. AgreesWithTape T.means unit.new)) }
        ensures same_size { OnErr result (T.means.size unit.new.tape ≡ T.means.size unit.old.tape) }
    {
        unit.insert()?;
        let word = read_report(unit, Report::Status);
        let status = StatusBits::from_bits_retain(word as u8);
        if !status.contains(StatusBits::PRESENT) {
            return Ok(None);
        }
        read_report(unit, Report::Error);
        let segments_per_track = read_report(unit, Report::FormatSegments);
        let Ok(geometry) = Geometry::new(segments_per_track) else {
            unreachable!("a cartridge has 3 segments per track or more, up to the greatest number")
        };
        let protected = status.contains(StatusBits::PROTECTED);
        let referenced = status.contains(StatusBits::REFERENCED);
        Ok(Some(Host::learnt(geometry, protected, referenced)))
    }

    /// A host that has learnt a cartridge's length and its marks.
    fn learnt(geometry: Geometry, protected: bool, referenced: bool) -> Host
        ensures { result ≡ started_host geometry protected referenced }
    {
        let cartridge = TapeInfo {
            segments_per_track: geometry.segments_per_track(),
            protected,
            referenced,
        };
        let deck = Deck {
            fresh: false,
            ..power_on_deck(Some(cartridge))
        };
        Host {
            geometry,
            deck,
            awaited: None,
        }
    }

    /// The cartridge's length.
    pub fn geometry(&self) -> Geometry
        ensures { result ≡ segments_of self.now }
    {
        self.geometry
    }

    /// Whether the cartridge is write protected.
    pub fn protected(&self) -> bool
        ensures { result ≡ is_protected (deck_of self.now) }
    {
        is_protected(&self.deck)
    }

    /// Whether the cartridge has its reference bursts.
    pub fn referenced(&self) -> bool
        ensures { result ≡ is_referenced (deck_of self.now) }
    {
        match self.deck.cartridge {
            Some(info) => info.referenced,
            None => false,
        }
    }

    /// Sends a train of pulses and a gap. Each refusal of the drive is ruled out; the fault is a tape that failed to
    /// write the reference bursts.
    pub fn send<T: Tape>(&mut self, unit: &mut Unit<T>, pulses: u8) -> Result<(), TapeFailed>
        requires fits { Fits T.means self.old unit.old }
        requires taken { TakesTrain unit.old.drive pulses }
        ensures row { OnOk result (unit.new.drive ≡ pulsed_row unit.old.drive pulses) }
        ensures failed { OnErr result
            (unit.new.drive ≡ without_reference (pulsed_row unit.old.drive pulses)) }
        ensures did { Does T.means unit.old.tape unit.new.tape
            (train_changes unit.old.drive pulses) result }
        ensures ok { train_changes unit.old.drive pulses ≡ [] → IsOk result }
        ensures untouched { train_changes unit.old.drive pulses ≡ [] →
            unit.new.tape ≡ unit.old.tape }
        ensures size { T.means.size unit.new.tape ≡ T.means.size unit.old.tape }
        ensures fits { Fits T.means self.new unit.new }
    {
        let sent = send_train(unit, pulses);
        self.follow(pulses);
        if sent.is_err() {
            self.deck = unreferenced(self.deck);
            return Err(TapeFailed);
        }
        Ok(())
    }

    /// Sends a train that leaves the cartridge as it is, and a gap.
    pub(crate) fn tell<T: Tape>(&mut self, unit: &mut Unit<T>, pulses: u8)
        requires fits { Fits T.means self.old unit.old }
        requires taken { TakesTrain unit.old.drive pulses }
        requires reads { train_changes unit.old.drive pulses ≡ [] }
        ensures row { unit.new.drive ≡ pulsed_row unit.old.drive pulses }
        ensures tape { unit.new.tape ≡ unit.old.tape }
        ensures fits { Fits T.means self.new unit.new }
    {
        match self.send(unit, pulses) {
            Ok(()) => (),
            Err(_) => unreachable!("the tape has nothing to fail at"),
        }
    }
}
