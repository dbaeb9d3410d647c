//! How the table's segment is read, by which of its sectors are unreadable.

ghost use Rattle.std.specs.Prelude.{◌≡◌, ◌<◌, ◌≤◌, ◌↔◌, ℕ, length, IsTrue};
ghost use Rattle.qic_base.specs.Cartridge.{lost_places};
ghost use Rattle.cartridge_laws.specs.Says.{LosesData};

use crate::table::Table;
use qic_base::LostSet;

/// The data sectors of the table's segment, which come first.
pub(crate) const DATA_SECTORS: u8 = gf256_qic::DATA_SECTORS as u8;

/// What the unreadable sectors of the table's segment call for (this project's profile).
#[derive(Clone, Copy, Debug, PartialEq, Eq)]
pub enum TableReading {
    /// All data sectors can be read: the data are what they hold, whatever the parity sectors say.
    AsRead,
    /// The data are those of the code block that agrees with the readable sectors.
    Solve,
    /// A data sector is unreadable, and more than three sectors are: their number.
    TooMany { lost: u8 },
}

fn loses_data(lost: LostSet) -> bool
    ensures lost { IsTrue result → LosesData lost }
    ensures kept { LosesData lost → IsTrue result }
{
    for place in 0..DATA_SECTORS {
        if lost.contains(place) {
            return true;
        }
    }
    false
}

impl Table {
    /// How the 32 sectors of the table's segment are read, of which these are unreadable.
    pub fn reading(lost: LostSet) -> TableReading
        ensures as_read { (result ≡ TableReading.AsRead) ↔ ¬ (LosesData lost) }
        ensures solve { (result ≡ TableReading.Solve)
            ↔ (LosesData lost × (length (lost_places lost 32) ≤ 3)) }
        ensures too_many { (n : ℕ) → (result ≡ TableReading.TooMany n)
            ↔ (LosesData lost × (length (lost_places lost 32) ≡ n) × (3 < n)) }
    {
        let count = lost.count();
        if !loses_data(lost) {
            TableReading::AsRead
        } else if count > 3 {
            TableReading::TooMany { lost: count }
        } else {
            TableReading::Solve
        }
    }
}
