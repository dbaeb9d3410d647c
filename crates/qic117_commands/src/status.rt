//! The status word, which a report of the drive's status shows.

ghost use Rattle.std.specs.Prelude.{⊤, ◌≡◌, [], ◌∷◌, codes};
ghost use Rattle.qic117_commands.specs.StatusWord.{status_of};

use crate::view::{DriveView, Motion};
use bitflags::{Flag, Flags, bitflag_items};

/// The bits of the status word (QIC-117).
#[derive(Clone, Copy)]
pub struct StatusBits(u8);

bitflag_items! {
    impl StatusBits: u8 {
        const STOPPED = 0x01;
        const ERROR = 0x02;
        const PRESENT = 0x04;
        const PROTECTED = 0x08;
        const FRESH = 0x10;
        const REFERENCED = 0x20;
        const AT_BOT = 0x40;
        const AT_EOT = 0x80;
    }
}

impl Flags for StatusBits {
    type Bits = u8;

    ghost exact = { ⊤ };

    ghost table = { (codes "STOPPED", 0x01)
        ∷ (codes "ERROR", 0x02)
        ∷ (codes "PRESENT", 0x04)
        ∷ (codes "PROTECTED", 0x08)
        ∷ (codes "FRESH", 0x10)
        ∷ (codes "REFERENCED", 0x20)
        ∷ (codes "AT_BOT", 0x40)
        ∷ (codes "AT_EOT", 0x80)
        ∷ [] };

    ghost set_of = { λ status. status.0 };

    fn flags<'a>() -> &'a [Flag<StatusBits>] {
        StatusBits::FLAGS
    }

    fn bits(&self) -> u8 {
        self.0
    }

    fn from_bits_retain(bits: u8) -> StatusBits {
        StatusBits(bits)
    }
}

/// The status word of a drive: `error` says that its error word is not 0, `at_bot` and `at_eot`
/// that the tape stands at the beginning or the end (QIC-117).
pub fn status_word(view: &DriveView, error: bool, at_bot: bool, at_eot: bool) -> u8
    ensures { result ≡ status_of view.now error at_bot at_eot }
{
    let mut status = StatusBits::empty();
    status.set(StatusBits::STOPPED, view.motion == Motion::Stopped);
    status.set(StatusBits::ERROR, error);
    status.set(StatusBits::PRESENT, view.present);
    status.set(StatusBits::PROTECTED, view.present && view.protected);
    status.set(StatusBits::FRESH, view.fresh);
    status.set(StatusBits::REFERENCED, view.present && view.referenced);
    status.set(StatusBits::AT_BOT, at_bot);
    status.set(StatusBits::AT_EOT, at_eot);
    status.bits()
}
