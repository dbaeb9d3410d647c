//! The typed drive.

ghost use Rattle.std.specs.Prelude.{◌≡◌, [], ◌∷◌, IfOk, true};
ghost use Rattle.qic_base.specs.Cartridge.{view_at};
ghost use Rattle.qic_base.specs.Step.{Wear, Spoil};
ghost use Rattle.qic_base.specs.TapeCalls.{Does, Tells, IsPlaceOf};
ghost use Rattle.qic_base.specs.Tape.{spoil_answer};
ghost use Rattle.drive_spec.specs.Deck.{is_streaming};
ghost use Rattle.drive_spec.specs.Terms.{run_on};
ghost use Rattle.drive_states.specs.Errors.{with_error};
ghost use Rattle.drive_states.specs.Sound.{IsSound};
ghost use Rattle.drive_states.specs.Typed.{IsIn};
ghost use Rattle.drive_states.specs.Unit.{Knows};

use crate::effects::run_on;
use crate::states::{Format, Seeking, State};
use drive_spec::Deck;
use qic_base::{Tape, TapeFailed};
use qic117_commands::ErrorCode;
use std::marker::{Model, PhantomData};

/// A drive in a known state, with the tape that it owns.
#[derive(Drop)]
pub struct Drive<S: State, T: Tape> {
    pub(crate) deck: Deck,
    pub(crate) tape: T,
    state: PhantomData<S>,
}

impl<S: State, T: Tape> Model for Drive<S, T> {
    ghost use Rattle.drive_states.specs.Sound.{IsSound};
    ghost use Rattle.drive_states.specs.Typed.{IsIn};
    ghost use Rattle.drive_states.specs.Unit.{DeckAndTape, Knows};

    ghost Value = { DeckAndTape T };

    ghost view = { λ d. record { deck = d.deck; tape = d.tape } };

    ghost invariant = { λ d. IsSound d.deck × IsIn S.state d.deck
        × Knows d.deck.cartridge (T.means.size d.tape) };
}

/// A command that a row of the table refuses: the drive, unchanged, and the code of the row.
#[derive(Drop)]
pub struct Refused<S: State, T: Tape> {
    pub drive: Drive<S, T>,
    pub code: ErrorCode,
}

/// The write of the reference bursts failed: the drive, which seeks the start and is not referenced.
#[derive(Drop)]
pub struct ReferenceFailed<T: Tape> {
    pub drive: Drive<Seeking<Format>, T>,
}

/// A seek after a gap: it goes on, or the drive is there.
#[derive(Drop)]
pub enum Ticked<M: State, T: Tape> {
    Still(Drive<Seeking<M>, T>),
    There(Drive<M, T>),
}

impl<S: State, T: Tape> Drive<S, T> {
    /// A drive of a deck and a tape.
    pub(crate) fn of(deck: Deck, tape: T) -> Drive<S, T>
        requires sound { IsSound deck }
        requires state { IsIn S.state deck }
        requires known { Knows deck.cartridge (T.means.size tape) }
        ensures { result ≡ record { deck = deck; tape = tape } }
    {
        Drive {
            deck,
            tape,
            state: PhantomData,
        }
    }

    /// The deck, and the tape.
    pub(crate) fn into_parts(self) -> (Deck, T)
        ensures deck { result.0 ≡ self.deck }
        ensures tape { result.1 ≡ self.tape }
        ensures sound { IsSound self.deck }
        ensures state { IsIn S.state self.deck }
        ensures known { Knows self.deck.cartridge (T.means.size self.tape) }
    {
        let Drive {
            deck,
            tape,
            state: _,
        } = self;
        (deck, tape)
    }

    /// What the drive is in.
    pub(crate) fn deck(&self) -> Deck
        ensures deck { result ≡ self.now.deck }
        ensures sound { IsSound self.now.deck }
        ensures state { IsIn S.state self.now.deck }
        ensures known { Knows self.now.deck.cartridge (T.means.size self.now.tape) }
    {
        self.deck
    }

    /// Does nothing, but brings into view what each drive is by its invariant: its deck is within its bounds and in the
    /// drive's state, and it knows the size of its cartridge.
    pub(crate) fn reveal(&self)
        ensures sound { IsSound self.now.deck }
        ensures state { IsIn S.state self.now.deck }
        ensures known { Knows self.now.deck.cartridge (T.means.size self.now.tape) }
    {
        let _ = self.deck();
    }

    /// Sets the error word and the new cartridge flag.
    pub(crate) fn set_error(&mut self, error: u16, fresh: bool)
        ensures { self.new ≡ record self.old { deck = with_error error fresh self.old.deck } }
    {
        self.deck.error = error;
        self.deck.fresh = fresh;
    }

    /// The tape that streams runs on by a segment.
    pub(crate) fn run_on(&mut self)
        requires { is_streaming self.old.deck.motion ≡ true }
        ensures { self.new ≡ record self.old { deck = run_on self.old.deck } }
    {
        self.deck = run_on(self.deck);
    }

    /// Makes a readable sector of the cartridge unreadable.
    pub(crate) fn wear(&mut self, segment: u32, sector: u8) -> Result<(), TapeFailed>
        requires { IsPlaceOf T.means self.old.tape segment sector }
        ensures deck { self.new.deck ≡ self.old.deck }
        ensures did { Does T.means self.old.tape self.new.tape (Wear segment sector ∷ []) result }
        ensures size { T.means.size self.new.tape ≡ T.means.size self.old.tape }
    {
        self.tape.wear(segment, sector)
    }

    /// Makes a defect of a sector of the cartridge that was never formatted. Answers whether it is one now.
    pub(crate) fn spoil(&mut self, segment: u32, sector: u8) -> Result<bool, TapeFailed>
        requires { IsPlaceOf T.means self.old.tape segment sector }
        ensures deck { self.new.deck ≡ self.old.deck }
        ensures did { Does T.means self.old.tape self.new.tape (Spoil segment sector ∷ []) result }
        ensures answer { IfOk result (λ answer. Tells T.means self.old.tape (λ c.
            answer ≡ spoil_answer (view_at c segment sector))) }
        ensures size { T.means.size self.new.tape ≡ T.means.size self.old.tape }
    {
        self.tape.spoil(segment, sector)
    }
}
