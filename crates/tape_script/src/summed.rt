//! A sink that adds what it takes.

ghost use Rattle.std.specs.Prelude.{◌≡◌, ◌+◌, ◌%◌, ◌^◌, sum};
ghost use Rattle.tape_script.specs.Generator.{sum_means};

use qic_base::{Sink, SinkFailed};
use std::marker::Model;

/// A sink that takes every byte, keeps none and never fails: it adds the bytes modulo 2^32. Contracts see the sum.
#[derive(Drop)]
pub struct Summed {
    total: u32,
}

impl Model for Summed {
    ghost use Rattle.std.specs.Prelude.{ℕ};

    ghost Value = { ℕ };

    ghost view = { λ s. s.total };

    ghost inverse = { λ total. record { total = total } };
}

impl Summed {
    /// No byte was taken yet.
    pub fn new() -> Summed
        ensures { result ≡ 0 }
    {
        Summed { total: 0 }
    }

    /// The sum modulo 2^32 of the bytes taken.
    pub fn sum(&self) -> u32
        ensures { result ≡ self.now }
    {
        self.total
    }
}

fn add(total: u32, bytes: &[u8]) -> u32
    ensures { result ≡ (total + sum bytes.now) % 2 ^ 32 }
{
    let mut total = total;
    for byte in bytes {
        total = total.wrapping_add(u32::from(*byte));
    }
    total
}

impl Sink for Summed {
    ghost means = { sum_means };

    ghost use Rattle.std.specs.Prelude.{refl};
    ghost use Rattle.std.proofs.Common.{rules, arith};
    ghost use Rattle.std.proofs.lemmas.List.Sums.{sum_by-append};

    ghost took_nothing = { λ k. Prim.search rules };

    ghost took_both = { λ a b c xs ys first next.
        Prim.omega (arith, sum_by-append (λ x. x) xs ys) };

    ghost took_told = { λ a b xs took. refl };

    fn write(&mut self, from: &[u8]) -> Result<usize, SinkFailed> {
        self.total = add(self.total, from);
        Ok(from.len())
    }
}
