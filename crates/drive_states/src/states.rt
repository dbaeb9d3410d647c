//! The states of a typed drive.

use std::marker::PhantomData;

/// A state of a typed drive.
pub trait State {
    ghost use Rattle.drive_states.specs.Typed.{TypedState};

    /// The mode, whether the drive stands at the load point or seeks it, and whether it seeks.
    ghost state: { TypedState };
}

/// A state that a reset ends in another one.
pub trait Resets: State {
    ghost use Rattle.std.specs.Prelude.{◌≡◌};
    ghost use Rattle.drive_states.specs.Typed.{after_reset};

    type Reset: State;

    /// A reset ends in Primary mode, at the load point where the drive stood there or sought it.
    ghost resets: { Self.Reset.state ≡ after_reset Self.state };
}

/// A state in which the drive does not seek.
pub trait Standing: State {
    ghost use Rattle.std.specs.Prelude.{◌≡◌, false};
    ghost use Rattle.drive_states.specs.Typed.{moved, at_start};

    /// The state once the tape has moved: Primary for LoadPoint, else the same.
    type Moved: State;

    /// The state at the start of track 0: LoadPoint in Primary mode, else the same.
    type Home: State;

    /// The drive does not seek.
    ghost stands: { Self.state.seeks ≡ false };

    /// The tape has left the load point.
    ghost moves: { Self.Moved.state ≡ moved Self.state };

    /// The start of track 0 is the load point in Primary mode alone.
    ghost goes_home: { Self.Home.state ≡ at_start Self.state };
}

/// A state in which the table has skips: each standing one but Format.
pub trait Skips: Standing {
    ghost use Rattle.std.specs.Prelude.{◌≡◌, false};
    ghost use Rattle.qic117_commands.specs.Views.{is_format};

    /// The mode is another one.
    ghost is_no_format: { is_format Self.state.mode ≡ false };
}

/// A state from which Format mode is entered: LoadPoint and Primary.
pub trait EntersFormat: Standing {}

/// A state from which Verify mode is entered: LoadPoint, Primary and Format.
pub trait EntersVerify: Standing {}

/// A state from which Primary mode is entered: Format and Verify.
pub trait EntersPrimary: Standing {
    ghost use Rattle.std.specs.Prelude.{◌≡◌, false};
    ghost use Rattle.qic117_commands.specs.Views.{is_primary};

    /// The mode is another one.
    ghost is_other: { is_primary Self.state.mode ≡ false };
}

/// A state in which sectors are read: Primary and Verify.
pub trait Reads: Standing {
    ghost use Rattle.std.specs.Prelude.{◌≡◌, true};
    ghost use Rattle.drive_states.specs.Reach.{reads_in};

    /// The mode has the call.
    ghost reads: { reads_in Self.state.mode ≡ true };
}

/// In Primary mode at the load point, where the tape does not stream.
#[derive(Drop)]
pub struct LoadPoint;

/// In Primary mode, past the load point.
#[derive(Drop)]
pub struct Primary;

/// In Format mode.
#[derive(Drop)]
pub struct Format;

/// In Verify mode.
#[derive(Drop)]
pub struct Verify;

/// On the way to a place, where the drive is in the next state.
#[derive(Drop)]
pub struct Seeking<Next> {
    next: PhantomData<Next>,
}

impl State for LoadPoint {
    ghost use Rattle.std.specs.Prelude.{true, false};
    ghost use Rattle.qic117_commands.specs.declared.view.Mode.TheVariants as mode;

    ghost state = { record { mode = mode.Primary; at_load_point = true; seeks = false } };
}

impl State for Primary {
    ghost use Rattle.std.specs.Prelude.{false};
    ghost use Rattle.qic117_commands.specs.declared.view.Mode.TheVariants as mode;

    ghost state = { record { mode = mode.Primary; at_load_point = false; seeks = false } };
}

impl State for Format {
    ghost use Rattle.std.specs.Prelude.{false};
    ghost use Rattle.qic117_commands.specs.declared.view.Mode.TheVariants as mode;

    ghost state = { record { mode = mode.Format; at_load_point = false; seeks = false } };
}

impl State for Verify {
    ghost use Rattle.std.specs.Prelude.{false};
    ghost use Rattle.qic117_commands.specs.declared.view.Mode.TheVariants as mode;

    ghost state = { record { mode = mode.Verify; at_load_point = false; seeks = false } };
}

impl<Next: State> State for Seeking<Next> {
    ghost use Rattle.drive_states.specs.Typed.{seeking};

    ghost state = { seeking Next.state };
}

impl Standing for LoadPoint {
    ghost use Rattle.std.specs.Prelude.{refl};

    type Moved = Primary;

    type Home = LoadPoint;

    ghost stands = { refl };

    ghost moves = { refl };

    ghost goes_home = { refl };
}

impl Standing for Primary {
    ghost use Rattle.std.specs.Prelude.{refl};

    type Moved = Primary;

    type Home = LoadPoint;

    ghost stands = { refl };

    ghost moves = { refl };

    ghost goes_home = { refl };
}

impl Standing for Format {
    ghost use Rattle.std.specs.Prelude.{refl};

    type Moved = Format;

    type Home = Format;

    ghost stands = { refl };

    ghost moves = { refl };

    ghost goes_home = { refl };
}

impl Standing for Verify {
    ghost use Rattle.std.specs.Prelude.{refl};

    type Moved = Verify;

    type Home = Verify;

    ghost stands = { refl };

    ghost moves = { refl };

    ghost goes_home = { refl };
}

impl Resets for LoadPoint {
    ghost use Rattle.std.specs.Prelude.{refl};

    type Reset = LoadPoint;

    ghost resets = { refl };
}

impl Resets for Primary {
    ghost use Rattle.std.specs.Prelude.{refl};

    type Reset = Primary;

    ghost resets = { refl };
}

impl Resets for Format {
    ghost use Rattle.std.specs.Prelude.{refl};

    type Reset = Primary;

    ghost resets = { refl };
}

impl Resets for Verify {
    ghost use Rattle.std.specs.Prelude.{refl};

    type Reset = Primary;

    ghost resets = { refl };
}

impl<Next: Resets> Resets for Seeking<Next> {
    type Reset = Next::Reset;

    ghost resets = { Next.resets };
}

impl Skips for LoadPoint {
    ghost use Rattle.std.specs.Prelude.{refl};

    ghost is_no_format = { refl };
}

impl Skips for Primary {
    ghost use Rattle.std.specs.Prelude.{refl};

    ghost is_no_format = { refl };
}

impl Skips for Verify {
    ghost use Rattle.std.specs.Prelude.{refl};

    ghost is_no_format = { refl };
}

impl EntersFormat for LoadPoint {}

impl EntersFormat for Primary {}

impl EntersVerify for LoadPoint {}

impl EntersVerify for Primary {}

impl EntersVerify for Format {}

impl EntersPrimary for Format {
    ghost use Rattle.std.specs.Prelude.{refl};

    ghost is_other = { refl };
}

impl EntersPrimary for Verify {
    ghost use Rattle.std.specs.Prelude.{refl};

    ghost is_other = { refl };
}

impl Reads for Primary {
    ghost use Rattle.std.specs.Prelude.{refl};

    ghost reads = { refl };
}

impl Reads for Verify {
    ghost use Rattle.std.specs.Prelude.{refl};

    ghost reads = { refl };
}
