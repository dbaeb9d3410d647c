//! The cell of a sector: its state bytes, and behind them its 1,024 bytes.

ghost use Rattle.std.specs.Prelude.{◌≡◌, length};
ghost use Rattle.cart_image.specs.Layout.{cell_of as cell_with, formed_cell as cell_formed};

use crate::layout::{CELL_LEN, CELLS_LEN, FORMED, OPEN};
use qic_base::Sector;

/// A cell.
pub type Cell = [u8; CELL_LEN];

/// The cells of a segment, one behind the other.
pub type Cells = [u8; CELLS_LEN];

/// The cell with these state bytes and these bytes.
pub fn cell(gate: u8, formed: u8, defect: u8, bytes: &[u8]) -> Cell
    requires { length bytes.now ≡ 1024 }
    ensures { result ≡ cell_with gate formed defect bytes.now }
{
    let mut parts = [0; CELL_LEN];
    parts[0] = gate;
    parts[1] = formed;
    parts[2] = defect;
    parts[3..].copy_from_slice(bytes);
    parts
}

/// The cell of a formatted sector that holds these bytes, or of a lost one.
#[tactic(auto, unfolding(crate::specs::Layout::formed_cell))]
pub fn formed_cell(bytes: &Sector, held: bool) -> Cell
    ensures { result ≡ cell_formed held bytes.now }
{
    let gate = if held { OPEN } else { 0 };
    cell(gate, FORMED, 0, bytes)
}
