//! The values of a segment's columns at the roots of the code's generator.

ghost use Rattle.std.specs.Prelude.{◌≡◌, ◌+◌, ◌≤◌, ◌↔◌, length, IsTrue, All};
ghost use Rattle.qic_base.specs.Cartridge.{IsSector};
ghost use Rattle.erasure_solve.specs.Rows.{IsZero, AreValues, AreZero, PutsStrip, IsStrip, AddsToStrip};

use gf256_qic::{mul, pow, times_x};
use qic_base::{SECTOR, Sector, are_sectors};

/// How many columns are taken at once: so few that what is gathered of them stays in registers.
const STRIP: usize = 128;

/// The value of each column of a segment at each root, all 0 where the sectors are a code block. That
/// at 0xC3 is `scale` times the one at 0x02 of the column read from its last byte to its first.
#[derive(Drop)]
pub struct Values {
    pub reversed: Sector,
    pub at_one: Sector,
    pub at_generator: Sector,
    pub scale: u8,
}

impl Values {
    /// The values of the columns of at most 32 sectors.
    pub fn of(sectors: &[Sector]) -> Values
        requires { length sectors.now ≤ 32 }
        ensures values { AreValues result sectors.now }
        ensures sectors { All IsSector sectors.now }
    {
        are_sectors(sectors);
        let mut values = Values {
            reversed: [0; SECTOR],
            at_one: [0; SECTOR],
            at_generator: [0; SECTOR],
            scale: mul(0x02, pow(0xC3, sectors.len() as u8)),
        };
        for strip in 0..SECTOR / STRIP {
            let start = strip * STRIP;
            values.put(&Strip::of(sectors, start), start);
        }
        values
    }

    /// Puts the values of a strip's columns to their places.
    fn put(&mut self, strip: &Strip, start: usize)
        requires { start + 128 ≤ 1024 }
        ensures { PutsStrip self.old strip.now start self.new }
    {
        for j in 0..STRIP {
            self.reversed[start + j] = strip.reversed[j];
            self.at_one[start + j] = strip.at_one[j];
            self.at_generator[start + j] = strip.at_generator[j];
        }
    }

    /// Whether each value is 0.
    pub fn are_zero(&self) -> bool
        ensures { IsTrue result ↔ AreZero self.now }
    {
        is_zero(&self.reversed) && is_zero(&self.at_one) && is_zero(&self.at_generator)
    }
}

/// Whether each byte is 0.
pub fn is_zero(row: &Sector) -> bool
    ensures { IsTrue result ↔ IsZero row.now }
{
    row.iter().all(|byte| *byte == 0)
}

/// What is gathered of the columns from one on: their values at 0x01 and 0x02, and at 0x02 also the
/// values of the columns read from the last byte to the first. Those are the values at 0xC3 times a
/// power of 0x02, and take fewer instructions.
#[derive(Drop)]
struct Strip {
    reversed: [u8; STRIP],
    at_one: [u8; STRIP],
    at_generator: [u8; STRIP],
}

impl Strip {
    /// The strip of the columns from `start` on.
    fn of(sectors: &[Sector], start: usize) -> Strip
        requires within { start + 128 ≤ 1024 }
        requires few { length sectors.now ≤ 32 }
        requires sectors { All IsSector sectors.now }
        ensures { IsStrip result start sectors.now sectors.now }
    {
        let mut strip = Strip {
            reversed: [0; STRIP],
            at_one: [0; STRIP],
            at_generator: [0; STRIP],
        };
        for (i, sector) in sectors.iter().enumerate() {
            strip.add(start, sector, &sectors[sectors.len() - 1 - i]);
        }
        strip
    }

    /// Takes the next sector from the front and the next one from the end.
    fn add(&mut self, start: usize, sector: &Sector, from_end: &Sector)
        requires { start + 128 ≤ 1024 }
        ensures { AddsToStrip self.old start sector.now from_end.now self.new }
    {
        for j in 0..STRIP {
            let byte = sector[start + j];
            self.reversed[j] = times_x(self.reversed[j]) ^ from_end[start + j];
            self.at_one[j] ^= byte;
            self.at_generator[j] = times_x(self.at_generator[j]) ^ byte;
        }
    }
}
