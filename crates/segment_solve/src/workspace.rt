//! Room for the sectors of one segment.

ghost use Rattle.std.specs.Prelude.{◌≡◌, IfOk, length};
ghost use Rattle.std.specs.Borrow.{sem};

use qic_base::{NoMemory, SECTOR, SECTORS, Sector};
use std::alloc::Global;
use std::marker::Model;

/// The 32 sectors of a segment; the usable ones, ascending, stand at the first places. Contracts see the list of them.
#[derive(Drop)]
pub struct Workspace {
    pub(crate) sectors: Vec<Sector>,
}

impl Model for Workspace {
    ghost use Rattle.std.specs.Prelude.{ℕ, List, ◌≡◌};
    ghost use Rattle.std.specs.Vec.{vec_len};

    ghost Value = { List (List ℕ) };

    ghost view = { λ work. work.sectors.items };

    ghost invariant = { λ work. vec_len work.sectors ≡ 32 };
}

impl Workspace {
    ghost use Rattle.segment_solve.specs.Lending.{LendsSectors};

    /// Room for one segment, of zero bytes.
    pub fn new(alloc: Global) -> Result<Workspace, NoMemory>
        ensures { IfOk result (λ work. length work ≡ 32) }
    {
        let sectors = vec![in alloc; [0; SECTOR]; SECTORS as usize]?;
        Ok(Workspace { sectors })
    }

    /// The 32 sectors.
    pub fn sectors(&self) -> &[Sector]
        ensures value { result.now ≡ self.now }
        ensures size { length result.now ≡ 32 }
    {
        &self.sectors
    }

    /// The 32 sectors, to be changed.
    pub fn sectors_mut(&mut self) -> &mut [Sector]
        ensures* writes_back { sem 𝓛 (LendsSectors self.entry result) }
        ensures value { result.now ≡ self.old }
        ensures size { length result.now ≡ 32 }
    {
        &mut self.sectors
    }
}
