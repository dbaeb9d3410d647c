//! The bytes of a generated volume.

ghost use Rattle.std.specs.Prelude.{◌≡◌, ◌<◌, ◌+◌, ◌%◌, length};
ghost use Rattle.command_spec.specs.Make.{made_bytes};
ghost use Rattle.command_laws.specs.TextGenerator.{made_from};
ghost use Rattle.tape_script.specs.Generator.{made_means};

use qic_base::{Source, SourceFailed};
use std::marker::Model;

/// The bytes of a volume that `make` appends, as a source that never fails. Contracts see the bytes that are left.
#[derive(Drop)]
pub struct Made {
    next: u8,
    left: u32,
}

impl Model for Made {
    ghost use Rattle.std.specs.Prelude.{List, ℕ, ◌<◌};
    ghost use Rattle.command_laws.specs.TextGenerator.{made_from};

    ghost Value = { List ℕ };

    ghost view = { λ m. made_from m.next m.left };

    ghost invariant = { λ m. m.next < 251 };
}

impl Made {
    /// The bytes of the made volume with this number.
    pub fn new(seed: u32, volume: u32) -> Made
        ensures { result ≡ made_bytes seed volume }
    {
        let length = (u64::from(seed) * 37 + u64::from(volume) * 101) % 20000;
        let first = (u64::from(seed) + u64::from(volume) * 31) % 251;
        Made {
            next: first as u8,
            left: 1000 * (1 + length as u32),
        }
    }
}

/// Fills a place with made bytes, and answers the byte that comes next.
fn fill(into: &mut [u8], first: u8) -> u8
    requires { first < 251 }
    ensures filled { into.new ≡ made_from first (length into.old) }
    ensures next { result ≡ (first + length into.old) % 251 }
{
    let mut next = first;
    for byte in into {
        *byte = next;
        next = if next == 250 { 0 } else { next + 1 };
    }
    next
}

impl Source for Made {
    ghost means = { made_means };

    ghost keeps_itself = { λ s. tt };

    ghost keeps_on = { λ a b c first next. tt };

    fn read(&mut self, into: &mut [u8]) -> Result<usize, SourceFailed> {
        let count = into.len().min(self.left as usize);
        self.next = fill(&mut into[..count], self.next);
        self.left -= count as u32;
        Ok(count)
    }
}
