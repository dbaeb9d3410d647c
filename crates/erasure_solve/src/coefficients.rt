//! The coefficients by which the lost byte of a column comes from the column's values.

ghost use Rattle.std.specs.Prelude.{◌≡◌, ◌≢◌, ◌<◌, ◌↔◌, length, IsTrue};
ghost use Rattle.cartridge_spec.specs.Code.{power};
ghost use Rattle.erasure_solve.specs.Rows.{AddsRow, Corrects, weighed_sum, weighed_row};
ghost use Rattle.erasure_solve.specs.Correction.{correction_factors, FitsDegree, Applied};

use crate::values::{Values, is_zero};
use gf256_qic::{inv, mul, mul_by_shifts, pow};
use qic_base::{SECTOR, Sector};

/// The generator of the field, whose powers tell the places of a column apart.
const GENERATOR: u8 = 0x02;

/// Degrees from here on are those of no place: a column has at most this many bytes.
pub const NO_PLACE: u8 = 32;

/// The factors of a column's values at the three roots in what is added to its byte at one place;
/// the place's degree is the number of bytes behind it.
#[derive(Drop)]
pub struct Coefficients {
    degree: u8,
    factors: [u8; 3],
}

impl Coefficients {
    /// The coefficients at the place of degree `own` that give a column, with those at the other two
    /// degrees, the value 0 at each root.
    pub fn at(own: u8, other: u8, third: u8) -> Coefficients
        requires own { own < 35 }
        requires other { other < 35 }
        requires third { third < 35 }
        requires from_other { own ≢ other }
        requires from_third { own ≢ third }
        ensures degree { result.degree ≡ own }
        ensures factors { let x = power 2 own in let y = power 2 other in let z = power 2 third in
            result.factors ≡ correction_factors x y z }
    {
        Coefficients {
            degree: own,
            factors: factors(
                pow(GENERATOR, own),
                pow(GENERATOR, other),
                pow(GENERATOR, third),
            ),
        }
    }

    /// Whether the degree is that of a place.
    pub fn has_place(&self) -> bool
        ensures { IsTrue result ↔ (self.now.degree < 32) }
    {
        self.degree < NO_PLACE
    }

    /// Whether the correction can be made: its degree is that of a place, or it changes nothing.
    pub fn fits(&self, values: &Values) -> bool
        ensures { IsTrue result
            ↔ FitsDegree self.now.degree (weighed_row values.now self.now.factors) }
    {
        self.degree < NO_PLACE || is_zero(&weighed(values, &self.factors))
    }

    /// Adds the row to the sector at the place, if the degree is that of one.
    pub fn apply(&self, row: &Sector, sectors: &mut [Sector])
        requires { self.now.degree < 32 → self.now.degree < length sectors.old }
        ensures { Applied self.now.degree row.now sectors.old sectors.new }
    {
        if self.degree < NO_PLACE {
            let place = sectors.len() - 1 - self.degree as usize;
            add_row(&mut sectors[place], row);
        }
    }
}

/// Makes of the values of each column what is added to its bytes at three places: at the first two by
/// their factors, and at the third what these leave of the value at 1, which is the sum of the three.
/// It stands in the rows of the values: `reversed`, `at_one` and `at_generator` in turn.
pub fn correct(values: &mut Values, first: &Coefficients, second: &Coefficients)
    ensures { Corrects values.old first.now.factors second.now.factors values.new }
{
    let [inverse, q, r] = first.factors;
    let p = mul(inverse, values.scale);
    let [inverse, v, w] = second.factors;
    let u = mul(inverse, values.scale);
    for j in 0..SECTOR {
        let reversed = values.reversed[j];
        let one = values.at_one[j];
        let generator = values.at_generator[j];
        let at_first = weigh(p, q, r, reversed, one, generator);
        let at_second = weigh(u, v, w, reversed, one, generator);
        values.reversed[j] = at_first;
        values.at_one[j] = at_second;
        values.at_generator[j] = at_first ^ at_second ^ one;
    }
}

/// The sum of three bytes, each times its factor. Inlined, the loops over rows become vector code.
#[inline(always)]
fn weigh(p: u8, q: u8, r: u8, a: u8, b: u8, c: u8) -> u8
    ensures { result ≡ weighed_sum p q r a b c }
{
    mul_by_shifts(p, a) ^ mul_by_shifts(q, b) ^ mul_by_shifts(r, c)
}

/// The factors of a column's values at the three roots in the correction at the place of power `x`,
/// where the other two have the powers `y` and `z`.
fn factors(x: u8, y: u8, z: u8) -> [u8; 3]
    requires second { x ≢ y }
    requires third { x ≢ z }
    ensures { result ≡ correction_factors x y z }
{
    let scale = mul(x, mul(inv(x ^ y), inv(x ^ z)));
    [mul(scale, mul(y, z)), mul(scale, y ^ z), scale]
}

/// The values at the three roots, each times its factor, added up in each column.
fn weighed(values: &Values, factors: &[u8; 3]) -> Sector
    ensures { result ≡ weighed_row values.now factors.now }
{
    let [inverse, q, r] = *factors;
    let p = mul(inverse, values.scale);
    let mut row = [0; SECTOR];
    for (j, byte) in row.iter_mut().enumerate() {
        *byte = weigh(
            p,
            q,
            r,
            values.reversed[j],
            values.at_one[j],
            values.at_generator[j],
        );
    }
    row
}

/// Adds a row of bytes to a sector.
fn add_row(sector: &mut Sector, row: &Sector)
    ensures { AddsRow row.now sector.old sector.new }
{
    for (j, byte) in sector.iter_mut().enumerate() {
        *byte ^= row[j];
    }
}
