//! The field of 256 elements and the code of QIC-80 cartridges.
#![tactic(auto)]

ghost use Rattle.std.specs.Prelude.{◌≡◌, ◌≢◌, ◌*◌, ◌%◌};
ghost use Rattle.cartridge_spec.specs.Code.{product, power};

use logarithms::{exponential, logarithm};

pub mod laws;
mod logarithms;

/// The data sectors of a segment without a bad sector, of 32; those of parity stand behind them (QIC-80-MC).
pub const DATA_SECTORS: usize = 29;

/// The product of two elements of the field of QIC-80 (QIC-80-MC).
pub fn mul(a: u8, b: u8) -> u8
    ensures { result ≡ product a b }
{
    if a == 0 || b == 0 {
        return 0;
    }
    exponential(logarithm(a) + logarithm(b))
}

/// The inverse of an element that is not 0.
pub fn inv(a: u8) -> u8
    requires { a ≢ 0 }
    ensures { product a result ≡ 1 }
{
    exponential(255 - logarithm(a))
}

/// The product of `n` factors `a`; 1 where there are none.
pub fn pow(a: u8, n: u8) -> u8
    ensures { result ≡ power a n }
{
    if n == 0 {
        return 1;
    }
    if a == 0 {
        return 0;
    }
    exponential(logarithm(a) * n as usize)
}

/// The product of two elements by shifts, which takes longer than `mul` but has no branch and reads
/// no table: a loop of it over rows of bytes can be done for many bytes at once, as of those below.
pub fn mul_by_shifts(a: u8, b: u8) -> u8
    ensures { result ≡ product a b }
{
    let mut shifted = a;
    let mut sum = 0;
    for place in 0..8u8 {
        sum ^= shifted & mask(b >> place);
        shifted = times_x(shifted);
    }
    sum
}

/// The product with x, 0x02.
pub fn times_x(a: u8) -> u8
    ensures { result ≡ product a 2 }
{
    a << 1 ^ 0x87 & mask(a >> 7)
}

/// The quotient by x, which is the product with its inverse 0xC3.
pub fn over_x(a: u8) -> u8
    ensures { result ≡ product a 0xC3 }
{
    a >> 1 ^ 0xC3 & mask(a)
}

/// Eight copies of the lowest bit.
fn mask(a: u8) -> u8
    ensures { result ≡ 255 * (a % 2) }
{
    0u8.wrapping_sub(a & 1)
}
